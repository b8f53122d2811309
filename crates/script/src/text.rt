// Bytes into lines, words and numbers.
ghost use Rattle.std.specs.Prelude.{◌≡◌, ◌+◌, ◌-◌, ◌*◌, ◌^◌, ◌<◌, ◌&&◌, [], ◌∷◌, length, take, drop, if◌then◌else◌, Some, None, vec_items, MatchOption, nat_lt};
ghost use Rattle.std.specs.Option.{ok_or};
ghost use Rattle.timing.specs.declared.refusal.Refusal.TheVariants.{Malformed};
ghost use Rattle.script.specs.Stops.{Gives};
ghost use Rattle.script.specs.Text.{pieces, FirstPiece, words, word_of, rest_of, is_digit, decimal, numbers as numbers_of};

use crate::stop::Stop;
use std::alloc::Global;
use timing::refusal::Refusal;

// What stands before a place, and what stands behind it.
fn around(s: &[u8], place: usize) -> (&[u8], &[u8])
    requires { place < length s.now }
    ensures before { result.0.now ≡ take place s.now }
    ensures behind { result.1.now ≡ drop (place + 1) s.now }
{
    (&s[..place], &s[place + 1..])
}

// What stands before the first separator, and what stands after it.
pub fn cut(s: &[u8], separator: u8) -> Option<(&[u8], &[u8])>
    ensures { MatchOption result (pieces separator s.now ≡ s.now ∷ []) (λ p. (pieces separator s.now ≡ p.0.now ∷ pieces separator p.1.now) × (length p.1.now < length s.now)) }
{
    let i = s.iter().position(|b| *b == separator)?;
    Some(around(s, i))
}

// The first piece, and what stands behind it and its separator: all, and nothing, where there is none.
fn first_piece(s: &[u8], separator: u8) -> (&[u8], &[u8])
    ensures { FirstPiece separator s.now result.0.now result.1.now }
{
    match cut(s, separator) {
        Some(parts) => parts,
        None => (s, &[]),
    }
}

// The first word of a line, and what stands behind it and one space.
pub fn next_word(line: &[u8]) -> Option<(&[u8], &[u8])>
    ensures words { MatchOption result (words line.now ≡ []) (λ p. (words line.now ≡ p.0.now ∷ words p.1.now) × (length p.1.now < length line.now)) }
    ensures parts { MatchOption result (word_of line.now ≡ None) (λ p. (word_of line.now ≡ Some p.0.now) × (rest_of line.now ≡ p.1.now)) }
{
    let start = line.iter().position(|b| *b != b' ')?;
    Some(first_piece(&line[start..], b' '))
}

// A word as a number.
pub fn number(word: &[u8]) -> Option<u64>
    ensures { result ≡ decimal word.now }
{
    if word.is_empty() {
        return None;
    }
    let mut n = 0u64;
    for b in word {
        n = with_digit(n, *b)?;
    }
    Some(n)
}

// A number with one digit more.
fn with_digit(n: u64, b: u8) -> Option<u64>
    ensures { result ≡ (if is_digit b && nat_lt (n * 10 + (b - 48)) (2 ^ 64) then Some (n * 10 + (b - 48)) else None) }
{
    if !(b'0'..=b'9').contains(&b) {
        return None;
    }
    n.checked_mul(10)?.checked_add(u64::from(b - b'0'))
}

// A word as a number, or its refusal.
fn field(word: &[u8]) -> Result<u64, Refusal>
    ensures { result ≡ ok_or (decimal word.now) Malformed }
{
    number(word).ok_or(Refusal::Malformed)
}

// Every word of a line as a number.
pub fn numbers(heap: Global, fields: &[u8]) -> Result<Vec<u64>, Stop>
    ensures { Gives vec_items result (numbers_of (words fields.now)) }
{
    let mut all = Vec::new(heap);
    for word in fields.split(|b| *b == b' ').filter(|word| !word.is_empty()) {
        all.push(field(word)?)?;
    }
    Ok(all)
}
