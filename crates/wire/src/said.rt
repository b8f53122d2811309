// What a message says: under its tag, and delivered.
ghost use Rattle.std.specs.Prelude.{◌≡◌, ℕ, ◌≤◌, false, length, if◌then◌else◌, Ok, Err, MatchResult, nat_le};
ghost use Rattle.timing.specs.declared.refusal.Refusal.TheVariants.{Malformed};
ghost use Rattle.wire.specs.Fits.{Begins};
ghost use Rattle.wire.specs.Formats.{said_bytes, has_form};
ghost use Rattle.wire.specs.Kinds.{kind_byte};
ghost use Rattle.wire.specs.Values.{said_of};
ghost use Rattle.wire.specs.Written.{written, written_over};

use crate::kind::Kind;
use timing::refusal::Refusal;

#[derive(Clone, Copy, Drop)]
pub struct Said<'a> {
    pub interval: u16,
    pub index: u8,
    pub text: &'a [u8],
}

// Kind, interval, index, length and text; and what is behind them.
pub(crate) fn split(kind: Kind, b: &[u8]) -> Result<(Said<'_>, &[u8]), Refusal>
    ensures { MatchResult result (λ p. Begins (kind_byte kind) b.now (said_of p.0) p.1.now) (λ e. (e ≡ Malformed) × ((n : ℕ) → 5 ≤ n → has_form (kind_byte kind) n b.now ≡ false)) }
{
    let [first, high, low, index, count, rest @ ..] = b else {
        return Err(Refusal::Malformed);
    };
    if *first != u8::from(kind) || *count > 200 {
        return Err(Refusal::Malformed);
    }
    let (text, rest) = rest
        .split_at_checked(usize::from(*count))
        .ok_or(Refusal::Malformed)?;
    let said = Said {
        interval: u16::from_be_bytes([*high, *low]),
        index: *index,
        text,
    };
    Ok((said, rest))
}

// The same bytes, at the front of the memory, and how many.
// A memory of fixed size and a length, here and in the writers above: there is no heap, and the C interface hands both on.
pub(crate) fn write(kind: Kind, said: Said<'_>, out: &mut [u8; 256]) -> Result<usize, Refusal>
    ensures answer { result ≡ written (said_of said.entry) (said_bytes (kind_byte kind) (said_of said.entry)) }
    ensures memory { out.new ≡ written_over (said_of said.entry) (said_bytes (kind_byte kind) (said_of said.entry)) out.old }
{
    let count = said.text.len();
    if count > 200 {
        return Err(Refusal::Malformed);
    }
    let [high, low] = said.interval.to_be_bytes();
    out[..5].copy_from_slice(&[u8::from(kind), high, low, said.index, count as u8]);
    out[5..5 + count].copy_from_slice(said.text);
    Ok(5 + count)
}
