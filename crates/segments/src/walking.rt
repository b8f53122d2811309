// The chain made from the key that was drawn, and walked from part to part.
ghost use Rattle.std.specs.Prelude.{◌≡◌, ℕ, ◌+◌, ◌-◌, ◌*◌, List, length, if◌then◌else◌, nat_eq};
ghost use Rattle.segments.specs.Parts.{at, key_at, part_of, top_of, drawn_in, EndsAre, KeysAre, TailIs};
ghost use Rattle.segments.specs.Held.{last_of, Same, Made, key_of, bytes_of};
ghost use Rattle.segments.specs.Laws.{Few, Once, Enough};
ghost use Rattle.segments.specs.Work.{work};

use crate::descent::{descend, down};
use crate::parts::{Part, Segments};
use keychain::key::Key;
use timing::parameters::Parameters;

// Works out the keys of a part from its last one.
#[tactic(auto, using(crate::proofs::Keys::filled_at))]
fn fill_part(keys: &mut [Key; 128], ends: &[Key; 128], part: Part) -> usize
    ensures long { length keys.new ≡ 128 }
    ensures filled { (drawn : List ℕ) → at ends.now part.number ≡ key_at part.parameters.last drawn (top_of part.parameters.last part.number) → KeysAre part.parameters.last part.number drawn keys.new }
    ensures worked { result ≡ top_of part.parameters.last part.number - 128 * part.number - 1 }
{
    descend(&mut keys[0..part.size()], ends[part.number])
}

// The last keys of the part before the one that is entered: moved from `keys`, those of part `from`, or worked out.
#[tactic(auto, using(crate::proofs::Keys::filled_at))]
fn fill_tail(
    tail: &mut [Key; 9],
    keys: &[Key; 128],
    ends: &[Key; 128],
    from: usize,
    to: Part,
) -> usize
    ensures long { length tail.new ≡ 9 }
    ensures filled { (drawn : List ℕ) → EndsAre to.parameters.last drawn ends.now → KeysAre to.parameters.last from drawn keys.now → TailIs to.parameters.last to.number to.parameters.delay drawn tail.new }
    ensures worked { result ≡ (if nat_eq to.number (from + 1) then 0 else (if nat_eq to.number 0 then 0 else to.parameters.delay)) }
{
    match to.number.checked_sub(1) {
        None => 0,
        Some(before) if before == from => {
            tail.copy_from_slice(&keys[0..9]);
            0
        }
        Some(before) => {
            let delay = usize::from(to.parameters.delay);
            descend(&mut tail[0..delay + 1], ends[before])
        }
    }
}

// Stores the last key of each part, from the key that was drawn down, and gives key 0.
fn store_ends(ends: &mut [Key; 128], parameters: Parameters, drawn: Key) -> Key
    ensures long { length ends.new ≡ 128 }
    ensures drawn { drawn_in parameters.last ends.new ≡ drawn.bytes }
    ensures stored { EndsAre parameters.last (drawn_in parameters.last ends.new) ends.new }
    ensures first { result.bytes ≡ key_at parameters.last drawn.bytes 0 }
{
    let parts = usize::from(parameters.last).div_ceil(128);
    let mut key = drawn;
    for number in (0..parts).rev() {
        ends[number] = key;
        let part = Part { parameters, number };
        key = down(key, part.size());
    }
    key
}

impl Segments {
    // Places for a chain that is yet to be made, all zeros: that of one interval, with a key of zeros.
    pub fn blank() -> Segments
        ensures { result.part ≡ 0 }
    {
        Segments {
            parameters: Parameters {
                ticks: 1,
                delay: 1,
                error: 0,
                last: 1,
            },
            part: 0,
            ends: [Key::ZERO; 128],
            keys: [Key::ZERO; 128],
            tail: [Key::ZERO; 9],
        }
    }

    // Makes the chain in place from the key of its last interval, which was drawn, and gives key 0, which is not kept.
    pub fn make(&mut self, parameters: Parameters, drawn: Key) -> Key
        ensures made { Made parameters drawn.bytes self.new }
        ensures first { result.bytes ≡ key_at parameters.last drawn.bytes 0 }
    {
        let zero = store_ends(&mut self.ends, parameters, drawn);
        let first = Part {
            parameters,
            number: 0,
        };
        let _made = fill_part(&mut self.keys, &self.ends, first);
        self.parameters = parameters;
        self.part = 0;
        zero
    }

    pub fn parameters(&self) -> Parameters
        ensures { result ≡ self.now.parameters }
    {
        self.parameters
    }

    // The part where it is.
    fn here(&self) -> Part
        ensures parameters { result.parameters ≡ self.now.parameters }
        ensures number { result.number ≡ self.now.part }
    {
        Part {
            parameters: self.parameters,
            number: self.part,
        }
    }

    // The key of an interval, where it is held.
    pub fn key(&self, interval: u16) -> Option<Key>
        ensures { bytes_of result ≡ key_of self.now interval }
    {
        if !self.parameters.has_interval(interval) {
            return None;
        }
        let i = usize::from(interval);
        let low = 128 * self.part;
        let top = self.here().top();
        if i > low && i <= top {
            Some(self.keys[top - i])
        } else if i % 128 == 0 || interval == self.parameters.last {
            Some(self.ends[(i - 1) / 128])
        } else if i <= low && low - i <= usize::from(self.parameters.delay) {
            Some(self.tail[low - i])
        } else {
            None
        }
    }

    // Goes to the part of an interval, and gives how many keys it worked out for that.
    #[tactic(auto, using(crate::proofs::Work::length_work, crate::proofs::Work::length_none))]
    pub fn enter(&mut self, interval: u16) -> usize
        ensures same { Same self.new self.old }
        ensures there { self.new.part ≡ part_of (last_of self.old) interval }
        ensures worked { result ≡ length (work (last_of self.old) self.old.parameters.delay self.old.part (part_of (last_of self.old) interval)) }
    {
        let to = Part::of(self.parameters, interval);
        if to.number == self.part {
            return 0;
        }
        let moved = fill_tail(&mut self.tail, &self.keys, &self.ends, self.part, to);
        let made = fill_part(&mut self.keys, &self.ends, to);
        self.part = to.number;
        moved + made
    }
}

// The places for keys are few, after the chain was made no key is worked out twice, and the keys that are needed are held.
pub fn segments_stand() -> u8
    ensures few { Few }
    ensures once { Once }
    ensures enough { Enough }
{
    0
}
