// The words that begin a command.
ghost use Rattle.std.specs.Prelude.{◌≡◌};
ghost use Rattle.std.specs.Option.{ok_or};
ghost use Rattle.timing.specs.declared.refusal.Refusal.TheVariants.{Malformed};

use timing::refusal::Refusal;

#[derive(Clone, Copy, PartialEq, Eq, Debug, Drop)]
pub enum Keyword {
    Settings,
    Receivers,
    Clocks,
    Clock,
    Message,
    End,
}

impl TryFrom<&[u8]> for Keyword {
    ghost use Rattle.script.specs.Commands.{keyword_of};

    type Error = Refusal;

    ghost try_from_gives = { λ w r. r ≡ ok_or (keyword_of w.now) Malformed };

    // a match on byte strings was tried: it leaves a goal for each byte, 48 of them, and none proves alone
    #[tactic(auto, unfolding(crate::specs::Commands::keyword_of))]
    fn try_from(word: &[u8]) -> Result<Keyword, Refusal> {
        if word == b"settings".as_slice() {
            return Ok(Keyword::Settings);
        }
        if word == b"receivers".as_slice() {
            return Ok(Keyword::Receivers);
        }
        if word == b"clocks".as_slice() {
            return Ok(Keyword::Clocks);
        }
        if word == b"clock".as_slice() {
            return Ok(Keyword::Clock);
        }
        if word == b"message".as_slice() {
            return Ok(Keyword::Message);
        }
        if word == b"end".as_slice() {
            return Ok(Keyword::End);
        }
        Err(Refusal::Malformed)
    }
}
