// The state of a sender, of fixed size.
ghost use Rattle.std.specs.Prelude.{◌≡◌};
ghost use Rattle.timing.specs.Time.{parameters_of, interval_at};
ghost use Rattle.segments.specs.Parts.{part_of};

use segments::parts::Segments;
use turns::Turn;

// clock: the time; index: that of the next message of the clock's interval;
// told_in: the last interval in which a key was disclosed by itself, 0 for none.
// It has no `Debug` and no `Display`, since it holds keys.
#[derive(Drop)]
pub struct Sender {
    pub(crate) clock: u64,
    pub(crate) index: u8,
    pub(crate) told_in: u16,
    pub(crate) turn: Turn,
    pub(crate) chain: Segments,
    ghost there: { chain.part ≡ part_of chain.parameters.last (interval_at (parameters_of chain.parameters) clock) },
}
