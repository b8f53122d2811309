// Scripts read line by line, to their end or their first fault.
ghost use Rattle.std.specs.Prelude.{◌≡◌};
ghost use Rattle.script.specs.Reading.{Steps, Ends, Runs, in_place};
ghost use Rattle.script.specs.Stops.{with_line};
ghost use Rattle.script.specs.Text.{lines_of};

use crate::error::Error;
use crate::stop::Stop;
use crate::text;
use std::alloc::Global;

// What a script is read into: each line changes what stands, and the end gives what was read.
// In place: a value that is handed on from line to line is copied for each, and short lines took up to 2.2 times as long.
pub trait Follow: Drop {
    type Read: Drop;

    // what a line may come to, and what the end may
    ghost steps: { Steps Self };

    ghost ends: { Ends Self Self.Read };

    fn follow(&mut self, heap: Global, line: u64, text: &[u8]) -> Result<(), Stop>
        ensures { steps self.old line text.now (in_place self.new result) };

    fn finish(self) -> Result<Self::Read, Stop>
        ensures { ends self result };
}

// An answer of a line, whose fault has the line.
fn at<T: Drop>(line: u64, answer: Result<T, Stop>) -> Result<T, Error>
    ensures { result ≡ with_line line answer }
{
    answer.map_err(|stop| stop.at(line))
}

// A script read whole, or its first fault; a fault at its end is at its last line.
pub fn read<F: Follow>(heap: Global, start: F, script: &[u8]) -> Result<F::Read, Error>
    ensures { Runs F.steps F.ends 0 start (lines_of script.now) result }
{
    // a `for` over `split` was tried: in a generic function the check's own module for such an iterator does not close
    let mut state = start;
    let mut rest = script;
    let mut line = 0u64;
    while let Some((text, after)) = text::cut(rest, b'\n') {
        line += 1;
        at(line, state.follow(heap, line, text))?;
        rest = after;
    }
    line += 1;
    at(line, state.follow(heap, line, rest))?;
    at(line, state.finish())
}
