// The words that begin a command.
ghost use Rattle.std.specs.Prelude.{◌≡◌};
ghost use Rattle.std.specs.Option.{ok_or};
ghost use Rattle.timing.specs.declared.refusal.Refusal.TheVariants.{Malformed};

use timing::refusal::Refusal;

// Those of commands whose fields are all numbers.
#[derive(Clone, Copy, PartialEq, Eq, Debug, Drop)]
pub enum Counted {
    Play,
    Settings,
    Receivers,
    Time,
    Clock,
    Clocks,
    End,
}

// The others.
#[derive(Clone, Copy, PartialEq, Eq, Debug, Drop)]
pub enum Worded {
    Drawn,
    Say,
    SayHex,
    Bring,
    Bytes,
}

impl TryFrom<&[u8]> for Counted {
    ghost use Rattle.orders.specs.Orders.{counted_of};

    type Error = Refusal;

    ghost try_from_gives = { λ w r. r ≡ ok_or (counted_of w.now) Malformed };

    // a match on byte strings was tried in script: it leaves a goal for each byte, and none proves alone
    #[tactic(auto, unfolding(crate::specs::Orders::counted_of))]
    fn try_from(word: &[u8]) -> Result<Counted, Refusal> {
        if word == b"play".as_slice() {
            return Ok(Counted::Play);
        }
        if word == b"settings".as_slice() {
            return Ok(Counted::Settings);
        }
        if word == b"receivers".as_slice() {
            return Ok(Counted::Receivers);
        }
        if word == b"time".as_slice() {
            return Ok(Counted::Time);
        }
        if word == b"clock".as_slice() {
            return Ok(Counted::Clock);
        }
        if word == b"clocks".as_slice() {
            return Ok(Counted::Clocks);
        }
        if word == b"end".as_slice() {
            return Ok(Counted::End);
        }
        Err(Refusal::Malformed)
    }
}

impl TryFrom<&[u8]> for Worded {
    ghost use Rattle.orders.specs.Orders.{worded_of};

    type Error = Refusal;

    ghost try_from_gives = { λ w r. r ≡ ok_or (worded_of w.now) Malformed };

    // as above
    #[tactic(auto, unfolding(crate::specs::Orders::worded_of))]
    fn try_from(word: &[u8]) -> Result<Worded, Refusal> {
        if word == b"drawn".as_slice() {
            return Ok(Worded::Drawn);
        }
        if word == b"say".as_slice() {
            return Ok(Worded::Say);
        }
        if word == b"sayhex".as_slice() {
            return Ok(Worded::SayHex);
        }
        if word == b"bring".as_slice() {
            return Ok(Worded::Bring);
        }
        if word == b"bytes".as_slice() {
            return Ok(Worded::Bytes);
        }
        Err(Refusal::Malformed)
    }
}
