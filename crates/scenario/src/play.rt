// Scripts played whole or not at all.
ghost use Rattle.std.specs.Prelude.{IfOk};
ghost use Rattle.scenario.specs.Laws.{JudgedBySettings};
ghost use Rattle.scenario.specs.Plays.{Plays, playing};

use crate::arrival::Arrival;
use crate::scene::Scene;
use script::error::Error;
use script::reader::read;
use std::alloc::Global;

// What every message of a script comes to at every receiver, in the order of the script.
#[tactic(auto, using(crate::proofs::Lines::read_plays, crate::proofs::Sound::read_judged))]
pub fn play(heap: Global, script: &[u8]) -> Result<Vec<Arrival>, Error>
    ensures plays { Plays result (playing script.now) }
    ensures judged { IfOk result (λ v. JudgedBySettings v.items) }
{
    read(heap, Scene::Bare, script)
}
