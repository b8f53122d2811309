// The key chain in bytes: one step down, MAC keys and tags, and the walk down to a key that is had.
#![tactic(auto)]

ghost use Rattle.std.specs.Prelude.{◌≡◌, ℕ, ◌<◌, List, [], ◌∷◌, ◌≢◌, cond, not, replicate, slice_index, slice_index_or};
ghost use Rattle.keychain.specs.Chain.{stepped, key_down, tagged, absent_key, zero_key, ahead, walk_outcome_of, Collected, ChainTerms};
ghost use Rattle.model.specs.Receiver.{judge_walk, walk_steps, refused, taken};
ghost use Rattle.timing.specs.declared.refusal.Refusal.TheVariants.{KeyMisfit};
ghost use Rattle.sha256.specs.Hmac.{hmac};
ghost use Rattle.std.specs.Str.{bytes_eq};

use sha256::hmac_sha256;
use timing::refusal::Refusal;

pub mod key;

use crate::key::Key;

// A message waits at each of this many places. The keys for them and what they want are arrays of this size: fixed memory.
pub const PLACES: usize = 64;

// The most steps that are worked out for one key.
pub const MOST_STEPS: u32 = 1024;

impl Key {
    // What stands where no key is wanted.
    pub const ZERO: Key = Key { bytes: [0; 32] };

    // The key of the interval before.
    pub fn previous(self) -> Key
        ensures { result.bytes ≡ stepped self.bytes }
    {
        let bytes = hmac_sha256(&self.bytes, &[1]);
        Key { bytes }
    }

    // The tag of some bytes in the interval of this key.
    pub fn tag(self, text: &[u8]) -> [u8; 16]
        ensures { result ≡ tagged self.bytes text.now }
    {
        let mac_key = hmac_sha256(&self.bytes, &[2]);
        let mac = hmac_sha256(&mac_key, text);
        // `try_from` would be no plainer: its result would have to be unwrapped.
        let mut tag = [0u8; 16];
        tag.copy_from_slice(&mac[0..16]);
        tag
    }

    // Whether a tag of some bytes is right in the interval of this key.
    pub fn authenticates(self, text: &[u8], tag: &[u8]) -> bool
        ensures { result ≡ bytes_eq tag.now (tagged self.bytes text.now) }
    {
        let right = self.tag(text);
        tag == right.as_slice()
    }
}

// What a walk came to: whether the key fits, how many keys were worked out for it, and the wanted ones of them.
#[derive(Clone, Copy, Drop)]
pub struct Walked {
    pub outcome: Result<(), Refusal>,
    pub steps: u32,
    pub keys: [Key; PLACES],
}

// Writes the key to each place that wants the key so many intervals before.
fn put_key(before: u32, key: Key, wanted: &[u32; PLACES], keys: &mut [Key; PLACES])
    ensures put { (i : ℕ) → i < 64 → slice_index wanted.now i ≡ before → slice_index_or keys.new i absent_key ≡ key }
    ensures left { (i : ℕ) → i < 64 → (slice_index wanted.now i ≢ before) → slice_index_or keys.new i absent_key ≡ slice_index_or keys.old i absent_key }
{
    // By place, not `keys.iter_mut().zip(wanted)`: tried, and no invariant can name the keys while that lends them.
    for (i, w) in wanted.iter().enumerate() {
        if *w == before {
            keys[i] = key;
        }
    }
}

// How many intervals a key lies after the newest key: the keys that have to be worked out for it.
fn ahead_of(interval: u32, newest: u32) -> Result<u32, Refusal>
    ensures { result ≡ ahead interval newest }
{
    if interval <= newest {
        return Err(Refusal::KeyNotAfter);
    }
    let ahead = interval - newest;
    if ahead > MOST_STEPS {
        return Err(Refusal::KeyTooFar);
    }
    Ok(ahead)
}

// Works out the n keys before `key`, notes those that are wanted, and compares the last with the key that is had.
#[tactic(auto, using(crate::proofs::Chains::down_more))]
fn walk_down(
    key: Key,
    n: u32,
    had: Key,
    wanted: &[u32; PLACES],
    keys: &mut [Key; PLACES],
) -> Result<(), Refusal>
    requires { keys.old ≡ replicate 64 zero_key }
    ensures fits { walk_outcome_of result ≡ cond (not (bytes_eq (key_down n key.bytes) had.bytes)) (refused KeyMisfit) taken }
    ensures keys { Collected n key.bytes wanted.now keys.new }
{
    let mut k = key;
    // A loop left by its label: the project asks for this form here.
    'walk: for before in 0.. {
        if before == n {
            break 'walk;
        }
        put_key(before, k, wanted, keys);
        k = k.previous();
    }
    if k == had {
        Ok(())
    } else {
        Err(Refusal::KeyMisfit)
    }
}

// A key said to be of an interval, against the key that is had of the newest interval.
// `wanted` has for each place how many intervals before that of the key the one lies whose key is wanted there.
// Key and interval stay two parameters: a struct for the pair would be made for this one call alone.
pub fn walk(key: Key, interval: u32, newest: u32, had: Key, wanted: &[u32; PLACES]) -> Walked
    ensures outcome { walk_outcome_of result.outcome ≡ judge_walk hmac interval key.bytes newest had.bytes }
    ensures steps { result.steps ≡ walk_steps interval newest }
    ensures keys { Collected (walk_steps interval newest) key.bytes wanted.now result.keys }
{
    let mut keys = [Key::ZERO; PLACES];
    let ahead = ahead_of(interval, newest);
    // Not `ahead.and_then(..)`: tried, and nothing is known of the keys after a closure that writes them.
    let outcome = match ahead {
        Ok(n) => walk_down(key, n, had, wanted, &mut keys),
        Err(e) => Err(e),
    };
    Walked {
        outcome,
        steps: ahead.unwrap_or(0),
        keys,
    }
}

// The model's keys and tags are these.
pub fn terms_stand() -> u8
    ensures { ChainTerms }
{
    0
}
