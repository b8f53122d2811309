// What is proved of every script.
ghost use Rattle.scenario.specs.Laws.{FaultIsFirst};

// A fault is at the first line that is refused, or at the last line where `end` is missing.
pub fn first_fault_stands() -> u8
    ensures { FaultIsFirst }
{
    0
}
