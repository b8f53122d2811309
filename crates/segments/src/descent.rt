// Keys worked out one below another.
ghost use Rattle.std.specs.Prelude.{◌≡◌, ℕ, ◌-◌, ◌<◌, List, length};
ghost use Rattle.keychain.specs.Chain.{key_down};
ghost use Rattle.segments.specs.Parts.{Descent};

use keychain::key::Key;

// The key so many intervals before.
#[tactic(auto, using(keychain::proofs::Chains::down_none, keychain::proofs::Chains::down_more))]
pub(crate) fn down(mut key: Key, steps: usize) -> Key
    ensures { result.bytes ≡ key_down steps key.bytes }
{
    for _i in 0..steps {
        key = key.previous();
    }
    key
}

// Writes a key and below it those before it: at place j the key j intervals before. Gives how many it worked out.
#[tactic(auto, using(keychain::proofs::Chains::down_none, keychain::proofs::Chains::down_more))]
pub(crate) fn descend(keys: &mut [Key], top: Key) -> usize
    ensures long { length keys.new ≡ length keys.old }
    ensures written { Descent (length keys.old) top.bytes keys.new }
    ensures worked { result ≡ length keys.old - 1 }
{
    let Some((first, below)) = keys.split_first_mut() else {
        return 0;
    };
    *first = top;
    let mut key = top;
    for place in below.iter_mut() {
        key = key.previous();
        *place = key;
    }
    below.len()
}
