// Frames out of bytes.
ghost use Rattle.std.specs.Prelude.{◌≡◌, Some, None, MatchResult};
ghost use Rattle.timing.specs.declared.refusal.Refusal.TheVariants.{Malformed};
ghost use Rattle.frames.specs.Frames.{read_frame};
ghost use Rattle.frames.specs.Split.{frame_of};

use crate::head;
use crate::head::{Head, Source};
use timing::refusal::Refusal;

// A frame's source and its bytes, and what follows it.
#[derive(Clone, Copy, Drop)]
pub struct Frame<'a> {
    pub source: Source,
    pub bytes: &'a [u8],
    pub rest: &'a [u8],
}

// The first frame.
pub fn first(b: &[u8]) -> Result<Frame<'_>, Refusal>
    ensures { MatchResult result (λ f. read_frame b.now ≡ Some (frame_of f)) (λ e. (e ≡ Malformed) × (read_frame b.now ≡ None)) }
{
    let (head, rest) = b.split_first_chunk().ok_or(Refusal::Malformed)?;
    let Head { source, len } = head::read(*head)?;
    let (bytes, rest) = rest
        .split_at_checked(usize::from(len))
        .ok_or(Refusal::Malformed)?;
    Ok(Frame {
        source,
        bytes,
        rest,
    })
}
