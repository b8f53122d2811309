// A published vector: a line of a file, and what this repository's functions give for it.
ghost use Rattle.std.specs.Prelude.{◌≡◌, length, take, IfOk, Decides};
ghost use Rattle.sha256.specs.Sha256.{digest};
ghost use Rattle.sha256.specs.Hmac.{hmac};
ghost use Rattle.vectors.specs.Chain.{chained};
ghost use Rattle.vectors.specs.Hex.{Spells};
ghost use Rattle.vectors.specs.Lines.{no_vector};
ghost use Rattle.vectors.specs.Outcomes.{IsHmacOutcome};

use crate::fault::Fault;
use crate::hex::decode;
use sha256::HmacKey;
use std::alloc::{AllocError, Global};
use std::fmt;

// What a vector came to: the length of the text, and whether the result is the published one.
// The length is told either way, so an enum would have it in both its variants.
#[derive(Clone, Copy, PartialEq, Eq, Debug, Drop)]
pub struct Outcome {
    length: usize,
    pub agrees: bool,
}

impl fmt::Display for Outcome {
    fn fmt<W: fmt::Write>(&self, f: &mut fmt::Formatter<W>) -> fmt::Result {
        let said = if self.agrees { "ok" } else { "DIFFERS" };
        write!(f, "{} {said}", self.length)
    }
}

// Whether `published` is the digest of `text`.
fn digest_agrees(text: &[u8], published: &[u8; 32]) -> bool
    ensures { Decides result (digest text.now ≡ published.now) }
{
    sha256::sha256(text) == *published
}

// Whether `published` is the HMAC of `text` or its front, by the key as it is and by the key made ready.
fn hmac_agrees(key: &[u8], text: &[u8], published: &[u8]) -> bool
    ensures { Decides result (take (length published.now) (hmac key.now text.now) ≡ published.now) }
{
    sha256::hmac_sha256(key, text).starts_with(published) && ready_agrees(key, text, published)
}

// The same by the key made ready alone.
fn ready_agrees(key: &[u8], text: &[u8], published: &[u8]) -> bool
    ensures { Decides result (take (length published.now) (hmac key.now text.now) ≡ published.now) }
{
    HmacKey::new(key).mac(text).starts_with(published)
}

// Whether a line holds no vector: it is empty, or a comment.
pub fn passed_over(line: &str) -> bool
    ensures { result ≡ no_vector line.now }
{
    match line.as_bytes() {
        [] => true,
        [first, ..] => *first == b'#',
    }
}

// A line's vector by its words: name, number of repetitions, message, digest; or `RANDOM`, seed and four results.
pub fn judge_digest(heap: Global, words: &[&str]) -> Result<Outcome, Fault> {
    match words {
        [_, times, message, published] => judge_repeated(heap, times, message, published),
        ["RANDOM", seed, results @ ..] if results.len() == 4 => judge_random(heap, seed, results),
        _ => Err(Fault::Words),
    }
}

// The same of HMACs: case, key, text, HMAC.
pub fn judge_hmac(heap: Global, words: &[&str]) -> Result<Outcome, Fault> {
    match words {
        // case 5 has the first 16 bytes of the HMAC only
        ["5", key, text, published] => {
            judge_front(heap, key, text, &decode_array::<16>(heap, published)?)
        }
        [_, key, text, published] => {
            judge_front(heap, key, text, &decode_array::<32>(heap, published)?)
        }
        _ => Err(Fault::Words),
    }
}

// So many bytes in hexadecimal.
fn decode_array<const N: usize>(heap: Global, word: &str) -> Result<[u8; N], Fault>
    ensures { IfOk result (Spells word.now) }
{
    let bytes = decode(heap, word.as_bytes())?;
    <[u8; N]>::try_from(bytes.as_slice()).map_err(|_| Fault::Length)
}

// `message`, `times` times.
fn repeated(heap: Global, message: &[u8], times: u32) -> Result<Vec<u8>, AllocError> {
    let mut text = Vec::new(heap);
    for _ in 0..times {
        text.extend_from_slice(message)?;
    }
    Ok(text)
}

// The digest of a message repeated.
fn judge_repeated(
    heap: Global,
    times: &str,
    message: &str,
    published: &str,
) -> Result<Outcome, Fault> {
    let times = times.parse::<u32>().map_err(|_| Fault::Number)?;
    let published = decode_array(heap, published)?;
    let message = decode(heap, message.as_bytes())?;
    let text = repeated(heap, &message, times)?;
    Ok(Outcome {
        length: text.len(),
        agrees: digest_agrees(&text, &published),
    })
}

// The front of an HMAC.
fn judge_front(heap: Global, key: &str, text: &str, published: &[u8]) -> Result<Outcome, Fault>
    ensures { IfOk result (IsHmacOutcome key.now text.now published.now) }
{
    let key = decode(heap, key.as_bytes())?;
    let text = decode(heap, text.as_bytes())?;
    Ok(Outcome {
        length: text.len(),
        agrees: hmac_agrees(&key, &text, published),
    })
}

// The random test: the results after 1,000, 2,000 and so on digests.
fn judge_random(heap: Global, seed: &str, results: &[&str]) -> Result<Outcome, Fault> {
    let mut last: [u8; 32] = decode_array(heap, seed)?;
    let mut agrees = true;
    for result in results {
        let published = decode_array(heap, result)?;
        last = thousand_digests(last);
        agrees &= last == published;
    }
    Ok(Outcome {
        length: last.len(),
        agrees,
    })
}

// From three copies of the seed on, 1,000 times the digest of the last three; the last one.
fn thousand_digests(seed: [u8; 32]) -> [u8; 32]
    ensures { result ≡ chained 1000 seed seed seed }
{
    let [mut a, mut b, mut c] = [seed; 3];
    for _ in 0..1000u32 {
        let next = sha256::sha256([a, b, c].as_flattened());
        (a, b, c) = (b, c, next);
    }
    c
}
