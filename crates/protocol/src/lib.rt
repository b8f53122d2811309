// The promise over both ends.
#![tactic(auto)]

ghost use Rattle.protocol.specs.Whole.{PromiseOfWhole};

// Over every sequence of public calls of one sender and any number of receivers.
pub fn promise_stands() -> u8
    ensures { PromiseOfWhole }
{
    0
}
