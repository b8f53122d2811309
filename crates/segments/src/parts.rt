// What is kept of a key chain. Part b has the intervals 128 b + 1 to 128 b + 128, cut at the last one.
ghost use Rattle.std.specs.Prelude.{◌≡◌, ℕ, ◌-◌, ◌*◌, ◌<◌, length};
ghost use Rattle.segments.specs.Parts.{part_of, top_of, drawn_in, EndsAre, KeysAre, TailIs};

use keychain::key::Key;
use timing::parameters::Parameters;

// A part of a chain of these parameters, by its number.
#[derive(Clone, Copy, Drop)]
pub(crate) struct Part {
    pub(crate) parameters: Parameters,
    pub(crate) number: usize,
    ghost lies_in_chain: { 128 * number < parameters.last },
}

impl Part {
    // The part of an interval; past the last interval it is the last part.
    pub(crate) fn of(parameters: Parameters, interval: u16) -> Part
        ensures parameters { result.parameters ≡ parameters }
        ensures number { result.number ≡ part_of parameters.last interval }
    {
        let i = usize::from(interval.min(parameters.last));
        Part {
            parameters,
            number: i.saturating_sub(1) / 128,
        }
    }

    // Its last interval.
    pub(crate) fn top(self) -> usize
        ensures { result ≡ top_of self.parameters.last self.number }
    {
        (128 * self.number + 128).min(usize::from(self.parameters.last))
    }

    // How many intervals it has.
    pub(crate) fn size(self) -> usize
        ensures { result ≡ top_of self.parameters.last self.number - 128 * self.number }
    {
        self.top() - 128 * self.number
    }
}

// ends: at place b the last key of part b; keys: those of the part where it is, from its last one down;
// tail: the last ones of the part before, from its last one down, delay + 1 of them.
// Arrays with a part's number beside them, and not vectors: the memory is fixed, with no heap.
// Like a key it has no `Debug` and no `Display`.
#[derive(Drop)]
pub struct Segments {
    pub(crate) parameters: Parameters,
    pub(crate) part: usize,
    pub(crate) ends: [Key; 128],
    pub(crate) keys: [Key; 128],
    pub(crate) tail: [Key; 9],
    ghost ends_long: { length ends ≡ 128 },
    ghost keys_long: { length keys ≡ 128 },
    ghost tail_long: { length tail ≡ 9 },
    ghost placed: { 128 * part < parameters.last },
    ghost ends_are: { EndsAre parameters.last (drawn_in parameters.last ends) ends },
    ghost keys_are: { KeysAre parameters.last part (drawn_in parameters.last ends) keys },
    ghost tail_is: { TailIs parameters.last part parameters.delay (drawn_in parameters.last ends) tail },
}
