// What an input comes to.
ghost use Rattle.std.specs.Prelude.{◌≡◌};
ghost use Rattle.model.specs.Receiver.{outcome_number};
ghost use Rattle.receiver.specs.State.{meant};

use std::fmt;
use timing::refusal::{Refusal, number_of};

// What is done with an input that is not refused.
#[derive(Clone, Copy, PartialEq, Eq, Debug, Drop)]
pub enum Accepted {
    // a tick is the clock
    Told,
    // a message is buffered
    Buffered,
    // an equal message is buffered already
    Already,
    // a key is taken
    Taken,
}

pub type Outcome = Result<Accepted, Refusal>;

// 0, or the number of the refusal.
pub fn number(outcome: Outcome) -> u8
    ensures { result ≡ outcome_number (meant outcome) }
{
    number_of(&outcome)
}

impl fmt::Display for Accepted {
    fn fmt<W: fmt::Write>(&self, f: &mut fmt::Formatter<W>) -> fmt::Result {
        f.write_str(match self {
            Accepted::Told => "told",
            Accepted::Buffered => "buffered",
            Accepted::Already => "buffered already",
            Accepted::Taken => "key taken",
        })
    }
}
