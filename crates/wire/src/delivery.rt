// Deliveries: what a message says, once its tag was found right.
ghost use Rattle.std.specs.Prelude.{◌≡◌, length, if◌then◌else◌, Some, None, Ok, Err, MatchResult, nat_le};
ghost use Rattle.wire.specs.Formats.{delivery_encoded, read_delivery, Unread};
ghost use Rattle.wire.specs.Values.{said_of};
ghost use Rattle.wire.specs.Written.{written, written_over};

use crate::kind::Kind;
use crate::said;
use crate::said::Said;
use timing::refusal::Refusal;

pub fn read(b: &[u8]) -> Result<Said<'_>, Refusal>
    ensures { MatchResult result (λ s. read_delivery b.now ≡ Some (said_of s)) (Unread (read_delivery b.now)) }
{
    let (said, rest) = said::split(Kind::Delivery, b)?;
    if rest.is_empty() {
        Ok(said)
    } else {
        Err(Refusal::Malformed)
    }
}

// A delivery, at the front of the memory, and how many bytes it has. A text above 200 bytes is refused.
pub fn write(said: Said<'_>, out: &mut [u8; 256]) -> Result<usize, Refusal>
    ensures answer { result ≡ written (said_of said.entry) (delivery_encoded (said_of said.entry)) }
    ensures memory { out.new ≡ written_over (said_of said.entry) (delivery_encoded (said_of said.entry)) out.old }
{
    said::write(Kind::Delivery, said, out)
}
