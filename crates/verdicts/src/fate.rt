// What became of one message at one receiver.
ghost use Rattle.std.specs.Prelude.{◌≡◌};
ghost use Rattle.verdicts.specs.Fates.{reached_by, pair_of};
ghost use Rattle.verdicts.specs.Verdicts.{believes, lacks_key, lacks_room};

use receiver::outcome::{Accepted, Outcome};
use stage::event::Deed;
use timing::refusal::Refusal;

// in_time: it reached the receiver in time, the clock within its error; outside: it did so with a clock outside of it;
// buffered, no_room: what it came to at one of the times at which it reached the receiver in time; delivered: the receiver delivered it.
// Five flags and no enum, since each can hold beside each other.
#[derive(Clone, Copy, PartialEq, Eq, Debug, Default, Drop)]
pub struct Fate {
    pub in_time: bool,
    pub outside: bool,
    pub buffered: bool,
    pub no_room: bool,
    pub delivered: bool,
}

impl Fate {
    // After the message reached the receiver in time, its clock within its error or not.
    pub(crate) fn reached(self, within: bool, outcome: Outcome) -> Fate
        ensures { result ≡ reached_by within outcome self }
    {
        Fate {
            in_time: self.in_time || within,
            outside: self.outside || !within,
            buffered: self.buffered || matches!(outcome, Ok(Accepted::Buffered)),
            no_room: self.no_room || matches!(outcome, Err(Refusal::NoRoom)),
            ..self
        }
    }

    // Whether the receiver has it in time and believes it.
    pub(crate) fn believes(self) -> bool
        ensures { result ≡ believes self }
    {
        self.in_time && self.delivered
    }

    // Whether it has it in time and buffered, and no key came.
    pub(crate) fn lacks_key(self) -> bool
        ensures { result ≡ lacks_key self }
    {
        self.in_time && !self.delivered && self.buffered
    }

    // Whether it has it in time and had no room.
    pub(crate) fn lacks_room(self) -> bool
        ensures { result ≡ lacks_room self }
    {
        self.in_time && !self.delivered && !self.buffered
    }
}

// A message and a receiver, which count from 1.
#[derive(Clone, Copy, PartialEq, Eq, Debug, Drop)]
pub struct Pair {
    pub message: usize,
    pub receiver: u64,
}

impl Pair {
    // Of which message at which receiver an event tells.
    pub(crate) fn of(deed: Deed) -> Option<Pair>
        ensures { result ≡ pair_of deed }
    {
        match deed {
            Deed::Heard {
                receiver,
                message: Some(message),
                ..
            }
            | Deed::Delivered {
                receiver,
                message: Some(message),
            } => Some(Pair { message, receiver }),
            _ => None,
        }
    }
}

// Of one message, over all receivers: how many it reached in time, and of those how many believe it, and why the others don't:
// there was no room, or no key came; and how many it reached in time with clocks outside of their error.
#[derive(Clone, Copy, PartialEq, Eq, Debug, Default, Drop)]
pub struct Verdict {
    pub reached: usize,
    pub believed: usize,
    pub no_room: usize,
    pub no_key: usize,
    pub outside: usize,
}

impl Verdict {
    ghost use Rattle.verdicts.specs.Verdicts.{with_fate};

    // With one fate more. No number is above that of the fates, so none reaches the most.
    #[tactic(auto, unfolding(crate::specs::Verdicts::with_fate))]
    pub(crate) fn with(self, fate: Fate) -> Verdict
        ensures { result ≡ with_fate self fate }
    {
        Verdict {
            reached: self.reached.saturating_add(usize::from(fate.in_time)),
            believed: self.believed.saturating_add(usize::from(fate.believes())),
            no_room: self.no_room.saturating_add(usize::from(fate.lacks_room())),
            no_key: self.no_key.saturating_add(usize::from(fate.lacks_key())),
            outside: self.outside.saturating_add(usize::from(fate.outside)),
        }
    }
}
