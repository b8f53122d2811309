// Bytes in hexadecimal.
ghost use Rattle.std.specs.Prelude.{◌≡◌, vec_items};
ghost use Rattle.script.specs.Stops.{Gives};
ghost use Rattle.orders.specs.Hex.{hex_digit, byte_of, hex_bytes};

use script::stop::Stop;
use std::alloc::Global;
use timing::refusal::Refusal;

// The value of one digit.
pub fn digit(b: u8) -> Option<u8>
    ensures { result ≡ hex_digit b }
{
    match b {
        b'0'..=b'9' => Some(b - b'0'),
        b'a'..=b'f' => Some(b - b'a' + 10),
        b'A'..=b'F' => Some(b - b'A' + 10),
        _ => None,
    }
}

// The byte of two digits, the high one first.
fn byte(pair: &[u8]) -> Option<u8>
    ensures { result ≡ byte_of pair.now }
{
    let &[high, low] = pair else {
        return None;
    };
    Some(digit(high)? * 16 + digit(low)?)
}

// Two digits a byte.
pub fn bytes(heap: Global, word: &[u8]) -> Result<Vec<u8>, Stop>
    ensures { Gives vec_items result (hex_bytes word.now) }
{
    let mut all = Vec::new(heap);
    for pair in word.chunks(2) {
        all.push(byte(pair).ok_or(Refusal::Malformed)?)?;
    }
    Ok(all)
}
