// Why an input is refused, and the number that is told of it.
ghost use Rattle.std.specs.Prelude.{◌≡◌};
ghost use Rattle.timing.specs.Numbers.{refusal_number, number_of};

use std::fmt;

// Each with its number.
#[derive(Clone, Copy, PartialEq, Eq, Debug, Drop)]
pub enum Refusal {
    // an unknown kind, or a bad length
    Malformed = 1,
    // an interval of 0 or above the last, or an index above 63
    OutOfRange = 2,
    // a message whose key may be out
    TooLate = 3,
    // a message of an interval whose key is had
    KeyHad = 4,
    // a message of an interval that begins more than the clock's error from now
    TooEarly = 5,
    // no room in the buffer
    NoRoom = 6,
    // a key of an interval not after the newest
    KeyNotAfter = 7,
    // a key more than 1,024 intervals ahead
    KeyTooFar = 8,
    // a key that doesn't fit
    KeyMisfit = 9,
    // a clock that goes back
    ClockBack = 10,
    // settings out of range
    BadSettings = 11,
}

impl From<Refusal> for u8 {
    ghost from_gives = { λ e n. n ≡ refusal_number e };

    fn from(e: Refusal) -> u8 {
        e as u8
    }
}

impl fmt::Display for Refusal {
    fn fmt<W: fmt::Write>(&self, f: &mut fmt::Formatter<W>) -> fmt::Result {
        f.write_str(match self {
            Refusal::Malformed => "not a command in its form and place",
            Refusal::OutOfRange => "an interval, a receiver or a count out of range",
            Refusal::TooLate => "too late",
            Refusal::KeyHad => "a message whose key is had",
            Refusal::TooEarly => "too early",
            Refusal::NoRoom => "no room in the buffer",
            Refusal::KeyNotAfter => "a key not after the newest",
            Refusal::KeyTooFar => "a key too far ahead",
            Refusal::KeyMisfit => "a key that does not fit",
            Refusal::ClockBack => "a clock that goes back",
            Refusal::BadSettings => "settings out of range",
        })
    }
}

// 0, or the number of the refusal.
pub fn number_of<T>(answer: &Result<T, Refusal>) -> u8
    ensures { result ≡ number_of answer.now }
{
    match answer {
        Ok(_) => 0,
        Err(e) => u8::from(*e),
    }
}
