// The kinds of records, each with its first byte. Settings have none.
ghost use Rattle.std.specs.Prelude.{◌≡◌, Ok};
ghost use Rattle.wire.specs.Kinds.{kind_byte, kind_of};

use timing::refusal::Refusal;

#[derive(Clone, Copy, PartialEq, Eq, Debug, Drop)]
pub(crate) enum Kind {
    Message = 1,
    Key = 2,
    Tick = 3,
    Delivery = 16,
}

impl From<Kind> for u8 {
    ghost from_gives = { λ k n. n ≡ kind_byte k };

    fn from(k: Kind) -> u8 {
        k as u8
    }
}

impl TryFrom<u8> for Kind {
    type Error = Refusal;

    ghost try_from_gives = { λ n r. r ≡ kind_of n };

    fn try_from(n: u8) -> Result<Kind, Refusal> {
        match n {
            1 => Ok(Kind::Message),
            2 => Ok(Kind::Key),
            3 => Ok(Kind::Tick),
            16 => Ok(Kind::Delivery),
            _ => Err(Refusal::Malformed),
        }
    }
}
