// The turns of disclosure: the newest key that may be disclosed, then that of a multiple of 1,024, then the newest, then the next multiple.
#![tactic(auto)]

ghost use Rattle.std.specs.Prelude.{◌≡◌};
ghost use Rattle.turns.specs.Laws.{TwoInARow, AllInARow, CatchesUp};
ghost use Rattle.turns.specs.Turns.{disclosed, afterwards, first_turn};

// Whose turn it is: the newest key's, or the next multiple's. Both have how many times 1,024 the multiple last disclosed was, 0 for none.
#[derive(Clone, Copy, PartialEq, Eq, Debug, Drop)]
pub enum Turn {
    Newest(u16),
    Multiple(u16),
}

impl Turn {
    pub fn first() -> Turn
        ensures { result ≡ first_turn }
    {
        Turn::Newest(0)
    }

    // The interval whose key is disclosed next, 0 for none, and the turn after it.
    // 0 and not an `Option`: a message has 0 for none too, so its writer would turn an `Option` back.
    pub fn next(self, newest: u16) -> (u16, Turn)
        ensures told { result.0 ≡ disclosed self newest }
        ensures after { result.1 ≡ afterwards self newest }
    {
        if newest < 1024 {
            return (newest, self);
        }
        match self {
            Turn::Newest(thousands) => (newest, Turn::Multiple(thousands)),
            Turn::Multiple(thousands) => {
                let follows = 1024 * u32::from(thousands) + 1024 <= u32::from(newest);
                let thousands = if follows { thousands + 1 } else { 1 };
                (1024 * thousands, Turn::Newest(thousands))
            }
        }
    }
}

// What is promised of the turns.
pub fn turns_stand() -> u8
    ensures two { TwoInARow }
    ensures all { AllInARow }
    ensures again { CatchesUp }
{
    0
}
