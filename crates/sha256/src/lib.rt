// SHA-256 and HMAC-SHA-256 (RFC 6234, RFC 2104).
#![tactic(auto)]

ghost use Rattle.std.specs.Prelude.{◌≡◌, ℕ, ◌+◌, ◌-◌, ◌*◌, ◌/◌, ◌%◌, ◌^◌, ◌<◌, ◌≤◌, List, ◌++◌, length, take, fold, slice_index};
ghost use Rattle.sha256.specs.Vectors.{Published};
ghost use Rattle.sha256.specs.Laws.{Laws};
ghost use Rattle.sha256.specs.Keyed.{Keyed};
ghost use Rattle.sha256.specs.Window.{slid, At};
ghost use Rattle.sha256.specs.Hmac.{hmac, key_block, xor_pad};
ghost use Rattle.sha256.specs.Sha256.{bsig0, bsig1, ssig0, ssig1, ch, maj, constants, initial_hash, words, expanded, schedule, step, rounds, sums, compress, absorb, padding, word_bytes, state_bytes, digest, blocks};

use std::array;

// The functions BSIG0, BSIG1, SSIG0, SSIG1, CH and MAJ of RFC 6234, 5.1.
fn big_sigma0(x: u32) -> u32
    ensures { result ≡ bsig0 x }
{
    x.rotate_right(2) ^ x.rotate_right(13) ^ x.rotate_right(22)
}

fn big_sigma1(x: u32) -> u32
    ensures { result ≡ bsig1 x }
{
    x.rotate_right(6) ^ x.rotate_right(11) ^ x.rotate_right(25)
}

fn small_sigma0(x: u32) -> u32
    ensures { result ≡ ssig0 x }
{
    x.rotate_right(7) ^ x.rotate_right(18) ^ (x >> 3)
}

fn small_sigma1(x: u32) -> u32
    ensures { result ≡ ssig1 x }
{
    x.rotate_right(17) ^ x.rotate_right(19) ^ (x >> 10)
}

fn choose(x: u32, y: u32, z: u32) -> u32
    ensures { result ≡ ch x y z }
{
    ((y ^ z) & x) ^ z
}

fn majority(x: u32, y: u32, z: u32) -> u32
    ensures { result ≡ maj x y z }
{
    ((x ^ y) & (y ^ z)) ^ y
}

// The constants K of RFC 6234, 5.1.
const ROUND_CONSTANTS: [u32; 64] = [
    0x428a2f98, 0x71374491, 0xb5c0fbcf, 0xe9b5dba5, 0x3956c25b, 0x59f111f1, 0x923f82a4, 0xab1c5ed5,
    0xd807aa98, 0x12835b01, 0x243185be, 0x550c7dc3, 0x72be5d74, 0x80deb1fe, 0x9bdc06a7, 0xc19bf174,
    0xe49b69c1, 0xefbe4786, 0x0fc19dc6, 0x240ca1cc, 0x2de92c6f, 0x4a7484aa, 0x5cb0a9dc, 0x76f988da,
    0x983e5152, 0xa831c66d, 0xb00327c8, 0xbf597fc7, 0xc6e00bf3, 0xd5a79147, 0x06ca6351, 0x14292967,
    0x27b70a85, 0x2e1b2138, 0x4d2c6dfc, 0x53380d13, 0x650a7354, 0x766a0abb, 0x81c2c92e, 0x92722c85,
    0xa2bfe8a1, 0xa81a664b, 0xc24b8b70, 0xc76c51a3, 0xd192e819, 0xd6990624, 0xf40e3585, 0x106aa070,
    0x19a4c116, 0x1e376c08, 0x2748774c, 0x34b0bcb5, 0x391c0cb3, 0x4ed8aa4a, 0x5b9cca4f, 0x682e6ff3,
    0x748f82ee, 0x78a5636f, 0x84c87814, 0x8cc70208, 0x90befffa, 0xa4506ceb, 0xbef9a3f7, 0xc67178f2,
];

// The initial hash value H(0) of RFC 6234, 6.1.
const INITIAL_HASH: [u32; 8] = [
    0x6a09e667, 0xbb67ae85, 0x3c6ef372, 0xa54ff53a, 0x510e527f, 0x9b05688c, 0x1f83d9ab, 0x5be0cd19,
];

// The constant of round `i`.
#[tactic(auto, unfolding(crate::specs::Sha256::constants))]
fn constant(i: usize) -> u32
    requires { i < 64 }
    ensures { result ≡ slice_index constants i }
{
    ROUND_CONSTANTS[i]
}

// One round, number `i`, on the eight working variables, with its word of the schedule.
#[inline(always)]
#[tactic(auto, unfolding(crate::specs::Sha256::step))]
fn round(s: [u32; 8], i: usize, w: u32) -> [u32; 8]
    requires { i < 64 }
    ensures { result ≡ step s (slice_index constants i) w }
{
    let [a, b, c, d, e, f, g, h] = s;
    let t1 = h
        .wrapping_add(big_sigma1(e))
        .wrapping_add(choose(e, f, g))
        .wrapping_add(constant(i))
        .wrapping_add(w);
    let t2 = big_sigma0(a).wrapping_add(majority(a, b, c));
    [t1.wrapping_add(t2), a, b, c, d.wrapping_add(t1), e, f, g]
}

// The sixteen words of a block.
fn block_words(block: &[u8; 64]) -> [u32; 16]
    ensures { result ≡ words 16 block.now }
{
    let (words, _) = block.as_chunks::<4>();
    array::from_fn(|i| u32::from_be_bytes(words[i]))
}

// Sixteen words of the schedule, one place further on.
#[inline(always)]
fn slide(w: [u32; 16]) -> [u32; 16]
    ensures { result ≡ slid w }
{
    let next = small_sigma1(w[14])
        .wrapping_add(w[9])
        .wrapping_add(small_sigma0(w[1]))
        .wrapping_add(w[0]);
    // By place, and not by `rotate_left`, which makes a step of the key chain 3.3 times as long.
    [
        w[1], w[2], w[3], w[4], w[5], w[6], w[7], w[8], w[9], w[10], w[11], w[12], w[13], w[14],
        w[15], next,
    ]
}

// The number of a round, the working variables before it, and the sixteen words of the schedule from it on.
#[derive(Clone, Copy)]
struct Working {
    round: usize,
    hash: [u32; 8],
    window: [u32; 16],
}

impl Working {
    // One round.
    #[inline(always)]
    fn turn(self) -> Working
        requires { self.round < 64 }
        ensures round { result.round ≡ self.round + 1 }
        ensures at { (block s : List ℕ) → At block s self → At block s result }
    {
        Working {
            round: self.round + 1,
            hash: round(self.hash, self.round, self.window[0]),
            window: slide(self.window),
        }
    }

    // Four rounds. Of sixteen the compiler would drop the `inline(always)`.
    #[inline(always)]
    fn four_turns(self) -> Working
        requires { self.round + 4 ≤ 64 }
        ensures round { result.round ≡ self.round + 4 }
        ensures at { (block s : List ℕ) → At block s self → At block s result }
    {
        self.turn().turn().turn().turn()
    }
}

// The sums of two hashes, word by word.
fn sum(s: [u32; 8], t: [u32; 8]) -> [u32; 8]
    ensures { result ≡ sums s t }
{
    array::from_fn(|i| s[i].wrapping_add(t[i]))
}

// The hash `s` after one more block.
fn compression(s: [u32; 8], block: &[u8; 64]) -> [u32; 8]
    ensures { result ≡ compress s block.now }
{
    let mut v = Working {
        round: 0,
        hash: s,
        window: block_words(block),
    };
    // Sixteen rounds a turn: with four a turn, and the last four behind the loop, a tag takes 1.02 times as long, with one 1.5 times.
    while v.round < 48 {
        v = v.four_turns().four_turns().four_turns().four_turns();
    }
    // The last sixteen stand behind the loop, since nothing reads the words that they move on to: there the compiler leaves these out, and in the loop a tag takes 1.05 times as long.
    let last = v.four_turns().four_turns().four_turns().four_turns();
    sum(s, last.hash)
}

// The hash `s` after more blocks.
fn absorb(s: [u32; 8], blocks: &[[u8; 64]]) -> [u32; 8]
    ensures { result ≡ fold compress s blocks.now }
{
    blocks.iter().fold(s, compression)
}

// The words of a hash as bytes.
fn state_bytes(s: [u32; 8]) -> [u8; 32]
    ensures { result ≡ state_bytes s }
{
    // The closure has clauses since none are inferred for an array that a call gives.
    let words: [[u8; 4]; 8] = array::from_fn(
        |i|
            requires { i < 8 }
            ensures { result ≡ word_bytes (slice_index s i) }
        { s[i].to_be_bytes() },
    );
    let mut out = [0u8; 32];
    out.copy_from_slice(words.as_flattened());
    out
}

// The end of a message: the bytes behind its whole blocks, and the message's length modulo 2^64.
#[derive(Clone, Copy)]
struct Tail<'a> {
    rest: &'a [u8],
    total: u64,
    ghost cut: { length rest.now ≡ total % 64 },
}

impl Tail<'_> {
    // How many blocks the bytes and their padding are: one or two.
    fn block_count(&self) -> usize
        ensures { result ≡ blocks (length self.now.rest.now) }
    {
        (self.rest.len() + 72) / 64
    }

    // The bytes and their padding, at the front.
    fn padded(&self) -> [u8; 128]
        ensures { take (64 * blocks (length self.now.rest.now)) result ≡ self.now.rest.now ++ padding self.now.total }
    {
        let n = self.rest.len();
        let end = 64 * self.block_count();
        let mut buf = [0u8; 128];
        buf[..n].copy_from_slice(self.rest);
        buf[n] = 0x80;
        buf[end - 8..end].copy_from_slice(&8u64.wrapping_mul(self.total).to_be_bytes());
        buf
    }

    // The digest of the message, whose whole blocks have given the hash `s`.
    fn digest(&self, s: [u32; 8]) -> [u8; 32]
        ensures { result ≡ state_bytes (absorb (blocks (length self.now.rest.now)) (self.now.rest.now ++ padding self.now.total) s) }
    {
        let buf = self.padded();
        let (blocks, _) = buf.as_chunks::<64>();
        state_bytes(absorb(s, &blocks[..self.block_count()]))
    }
}

// The digest of a message that ends with `text`: the `before` bytes ahead of it are whole blocks, and have given the hash `s`.
fn finish(s: [u32; 8], before: u64, text: &[u8]) -> [u8; 32]
    requires { before % 64 ≡ 0 }
    ensures { result ≡ state_bytes (absorb (blocks (length text.now)) (text.now ++ padding (before + length text.now)) s) }
{
    let (blocks, rest) = text.as_chunks::<64>();
    let tail = Tail {
        rest,
        total: before.wrapping_add(text.len() as u64),
    };
    tail.digest(absorb(s, blocks))
}

// The SHA-256 digest of a text of any length.
#[tactic(auto, unfolding(crate::specs::Sha256::digest, crate::specs::Sha256::initial_hash))]
pub fn sha256(text: &[u8]) -> [u8; 32]
    ensures { result ≡ digest text.now }
{
    finish(INITIAL_HASH, 0, text)
}

const INNER_PAD: u8 = 0x36;

const OUTER_PAD: u8 = 0x5c;

// The key as a block: the key or, where it has more than 64 bytes, its digest, and zeros behind it.
fn key_block(key: &[u8]) -> [u8; 64]
    ensures { result ≡ key_block key.now }
{
    let mut block = [0u8; 64];
    if key.len() <= 64 {
        block[..key.len()].copy_from_slice(key);
    } else {
        block[..32].copy_from_slice(&sha256(key));
    }
    block
}

// Each byte of the block XOR the pad.
fn xor_pad(block: &[u8; 64], pad: u8) -> [u8; 64]
    ensures { result ≡ xor_pad pad block.now }
{
    // Not `block.map(|x| x ^ pad)`, which makes a step of the key chain 1.2 times as long.
    let mut out = *block;
    for x in out.iter_mut() {
        *x ^= pad;
    }
    out
}

// The digest of a block followed by `text`.
fn after_block(block: &[u8; 64], text: &[u8]) -> [u8; 32]
    ensures { result ≡ digest (block.now ++ text.now) }
{
    finish(compression(INITIAL_HASH, block), 64, text)
}

// The HMAC-SHA-256 of a text under a key, each of any length.
#[tactic(auto, unfolding(crate::specs::Hmac::hmac))]
pub fn hmac_sha256(key: &[u8], text: &[u8]) -> [u8; 32]
    ensures { result ≡ hmac key.now text.now }
{
    let block = key_block(key);
    let inner = after_block(&xor_pad(&block, INNER_PAD), text);
    after_block(&xor_pad(&block, OUTER_PAD), &inner)
}

// A key made ready for many texts: the hashes after its block XOR the inner pad, and XOR the outer pad.
#[derive(Clone, Copy)]
pub struct HmacKey {
    inner: [u32; 8],
    outer: [u32; 8],
}

impl HmacKey {
    // The key, of any length, made ready.
    #[tactic(auto, unfolding(crate::specs::Sha256::initial_hash))]
    pub fn new(key: &[u8]) -> HmacKey
        ensures { Keyed key.now result }
    {
        let block = key_block(key);
        let inner = compression(INITIAL_HASH, &xor_pad(&block, INNER_PAD));
        let outer = compression(INITIAL_HASH, &xor_pad(&block, OUTER_PAD));
        HmacKey { inner, outer }
    }

    // The HMAC-SHA-256 of `text` under the key that this was made from.
    pub fn mac(&self, text: &[u8]) -> [u8; 32]
        ensures { (key : List ℕ) → Keyed key self.now → result ≡ hmac key text.now }
    {
        let inner = finish(self.inner, 64, text);
        finish(self.outer, 64, &inner)
    }
}

// Four published vectors hold of the definitions.
pub fn vectors_hold() -> u8
    ensures { Published }
{
    0
}

// The laws of the padding, and the lengths of digests and key blocks.
pub fn laws_hold() -> u8
    ensures { Laws }
{
    0
}
