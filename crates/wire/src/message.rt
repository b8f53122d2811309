// Messages: what they say, their tag, and the key that is disclosed behind it.
ghost use Rattle.std.specs.Prelude.{◌≡◌, false, ◌&&◌, leb, length, if◌then◌else◌, Ok, Err, MatchResult, nat_le};
ghost use Rattle.timing.specs.Time.{parameters_of};
ghost use Rattle.timing.specs.declared.refusal.Refusal.TheVariants.{Malformed, OutOfRange};
ghost use Rattle.model.specs.Receiver.{in_chain, message_bytes};
ghost use Rattle.wire.specs.Fits.{PacketFits};
ghost use Rattle.wire.specs.Formats.{has_form, message_encoded, packet};
ghost use Rattle.wire.specs.Values.{said_of, key_of, packet_of};
ghost use Rattle.wire.specs.Written.{written, written_over};

use crate::key::DisclosedKey;
use crate::kind::Kind;
use crate::said::Said;
use crate::{key, said};
use timing::parameters::Parameters;
use timing::refusal::Refusal;

// A message as it came; `under_tag` are the bytes that its tag is over.
#[derive(Clone, Copy, Drop)]
pub struct Message<'a> {
    pub said: Said<'a>,
    pub under_tag: &'a [u8],
    pub tag: &'a [u8; 16],
    pub disclosed: DisclosedKey<'a>,
}

impl Message<'_> {
    // Whether its interval is one of the chain and its index at most 63. The disclosed key is judged by itself.
    pub fn in_range(self, p: Parameters) -> Result<(), Refusal>
        ensures { result ≡ (if in_chain (parameters_of p) self.entry.said.interval && nat_le self.entry.said.index 63 then Ok tt else Err OutOfRange) }
    {
        if !p.has_interval(self.said.interval) || self.said.index > 63 {
            return Err(Refusal::OutOfRange);
        }
        Ok(())
    }
}

pub(crate) fn read(b: &[u8]) -> Result<Message<'_>, Refusal>
    ensures { MatchResult result (λ m. (b.now ≡ message_encoded (packet_of m)) × (PacketFits (packet_of m) × (m.under_tag.now ≡ message_bytes (said_of m.said)))) (λ e. (e ≡ Malformed) × (has_form 1 55 b.now ≡ false)) }
{
    let (said, rest) = said::split(Kind::Message, b)?;
    let (tag, rest) = rest.split_first_chunk().ok_or(Refusal::Malformed)?;
    let disclosed = key::read_part(rest)?;
    Ok(Message {
        said,
        under_tag: &b[0..5 + said.text.len()],
        tag,
        disclosed,
    })
}

// The bytes that the tag of a message is over, at the front of the memory, and how many.
pub fn write_under_tag(said: Said<'_>, out: &mut [u8; 256]) -> Result<usize, Refusal>
    ensures answer { result ≡ written (said_of said.entry) (message_bytes (said_of said.entry)) }
    ensures memory { out.new ≡ written_over (said_of said.entry) (message_bytes (said_of said.entry)) out.old }
{
    said::write(Kind::Message, said, out)
}

// A message, at the front of the memory, and how many bytes it has. A text above 200 bytes is refused.
pub fn write(
    said: Said<'_>,
    tag: &[u8; 16],
    disclosed: DisclosedKey<'_>,
    out: &mut [u8; 256],
) -> Result<usize, Refusal>
    ensures answer { result ≡ written (said_of said.entry) (message_encoded (packet (said_of said.entry) tag.now (key_of disclosed.entry))) }
    ensures memory { out.new ≡ written_over (said_of said.entry) (message_encoded (packet (said_of said.entry) tag.now (key_of disclosed.entry))) out.old }
{
    let count = said::write(Kind::Message, said, out)?;
    let DisclosedKey { interval, key } = disclosed;
    out[count..count + 16].copy_from_slice(tag);
    out[count + 16..count + 18].copy_from_slice(&interval.to_be_bytes());
    out[count + 18..count + 50].copy_from_slice(key);
    Ok(count + 50)
}
