// Why a line of a script is not followed.
ghost use Rattle.std.specs.Prelude.{◌≡◌};
ghost use Rattle.script.specs.declared.stop.Stop.TheVariants as stop;

use crate::error::{Error, Fault};
use std::alloc::{AllocError, AllocFailed};
use timing::refusal::Refusal;

#[derive(Clone, Copy, PartialEq, Eq, Debug, Drop)]
pub enum Stop {
    Fault(Refusal),
    NoMemory,
}

impl Stop {
    ghost use Rattle.script.specs.Stops.{at_line};

    // The same, with the line.
    pub fn at(self, line: u64) -> Error
        ensures { result ≡ at_line line self }
    {
        match self {
            Stop::Fault(refusal) => Error::Faulty(Fault { line, refusal }),
            Stop::NoMemory => Error::NoMemory,
        }
    }
}

impl From<Refusal> for Stop {
    ghost from_gives = { λ e r. r ≡ stop.Fault e };

    fn from(e: Refusal) -> Stop {
        Stop::Fault(e)
    }
}

impl From<AllocError> for Stop {
    ghost from_gives = { λ _ r. r ≡ stop.NoMemory };

    fn from(_e: AllocError) -> Stop {
        Stop::NoMemory
    }
}

impl<T: Drop> From<AllocFailed<T>> for Stop {
    ghost from_gives = { λ _ r. r ≡ stop.NoMemory };

    fn from(_e: AllocFailed<T>) -> Stop {
        Stop::NoMemory
    }
}
