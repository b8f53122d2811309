// Bytes written in hexadecimal.
ghost use Rattle.std.specs.Prelude.{◌≡◌, ℕ, List, IfOk, Err};
ghost use Rattle.vectors.specs.Hex.{hex_value, pair_value, Spells};

use crate::fault::Fault;
use std::alloc::Global;

// The value of a digit, 0 to 9 or a to f; `char::to_digit` takes A to F too.
fn hex_value(b: u8) -> Option<u8>
    ensures { result ≡ hex_value b }
{
    match b {
        b'0'..=b'9' => Some(b - b'0'),
        b'a'..=b'f' => Some(b - b'a' + 10),
        _ => None,
    }
}

// The byte that two digits spell.
fn byte(high: u8, low: u8) -> Option<u8>
    ensures { result ≡ pair_value (hex_value high) (hex_value low) }
{
    Some(16 * hex_value(high)? + hex_value(low)?)
}

// The bytes that `text` spells, two digits each.
pub fn decode(heap: Global, text: &[u8]) -> Result<Vec<u8>, Fault>
    ensures bytes { IfOk result (λ v. Spells text.now v.items) }
    ensures refused { result ≡ Err Fault.Hex → (bytes : List ℕ) → ¬ (Spells text.now bytes) }
{
    let (pairs, odd) = text.as_chunks::<2>();
    if !odd.is_empty() {
        return Err(Fault::Hex);
    }
    let mut bytes = Vec::new(heap);
    for &[high, low] in pairs {
        bytes.push(byte(high, low).ok_or(Fault::Hex)?)?;
    }
    Ok(bytes)
}
