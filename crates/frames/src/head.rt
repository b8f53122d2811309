// The head of a frame.
ghost use Rattle.std.specs.Prelude.{◌≡◌, Ok};
ghost use Rattle.frames.specs.Head.{head_answer, source_byte, source_of};

use timing::refusal::Refusal;

// Where the bytes of a frame come from.
#[derive(Clone, Copy, PartialEq, Eq, Debug, Drop)]
pub enum Source {
    // the receiver's own clock
    Clock = 0,
    Air = 1,
}

impl From<Source> for u8 {
    ghost from_gives = { λ s n. n ≡ source_byte s };

    fn from(s: Source) -> u8 {
        s as u8
    }
}

impl TryFrom<u8> for Source {
    type Error = Refusal;

    ghost try_from_gives = { λ n r. r ≡ source_of n };

    fn try_from(n: u8) -> Result<Source, Refusal> {
        match n {
            0 => Ok(Source::Clock),
            1 => Ok(Source::Air),
            _ => Err(Refusal::Malformed),
        }
    }
}

// The source, and how many bytes follow.
#[derive(Clone, Copy, Drop)]
pub struct Head {
    pub source: Source,
    pub len: u16,
}

pub fn read(b: [u8; 3]) -> Result<Head, Refusal>
    ensures { result ≡ head_answer b }
{
    let [source, high, low] = b;
    Ok(Head {
        source: Source::try_from(source)?,
        len: u16::from_be_bytes([high, low]),
    })
}

pub fn write(h: Head) -> [u8; 3]
    ensures { head_answer result ≡ Ok h }
{
    let [high, low] = h.len.to_be_bytes();
    [u8::from(h.source), high, low]
}
