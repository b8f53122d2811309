// Plays followed whole or not at all.
ghost use Rattle.simulation.specs.Plays.{Plays};

use crate::stage::Stage;
use hearings::event::Event;
use script::error::Error;
use script::reader::read;
use std::alloc::Global;

// All that happens in a play, in the order of the script; or its first fault, and nothing of it.
#[tactic(auto, using(crate::proofs::Lines::read_plays))]
pub fn play(heap: Global, script: &[u8]) -> Result<Vec<Event>, Error>
    ensures { Plays result script.now }
{
    read(heap, Stage::Dark, script)
}
