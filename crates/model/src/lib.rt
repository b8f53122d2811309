// The promise of the whole, and what it rests on, proved over every run.
#![tactic(auto)]

ghost use Rattle.model.specs.Cases.{WorkedCases};
ghost use Rattle.model.specs.Promise.{Meets};
ghost use Rattle.model.specs.Receiver.{ours};
ghost use Rattle.model.specs.Term.{InTime, KeyLate, OneWay, TagLate};
ghost use Rattle.model.specs.Witness.{ErrorOnce, Exact, MessageFirst, MustCompare, MustKeep, NeedsError, SomeRun, ToyFooled};

// What can be worked out of a key, and of what is on the air.
pub fn terms_stand() -> u8
    ensures one_way { OneWay }
    ensures key { KeyLate }
    ensures tag { TagLate }
    ensures time { InTime }
{
    0
}

// Our receiver keeps the promise.
pub fn promise_stands() -> u8
    ensures { Meets ours }
{
    0
}

// There is a run in which a message is said, buffered and delivered.
pub fn some_run_stands() -> u8
    ensures { SomeRun }
{
    0
}

// Wherever the safety test refuses, the key may really be out.
pub fn exactness_stands() -> u8
    ensures { Exact }
{
    0
}

// A receiver that tests by its clock alone delivers what nobody said, and doesn't keep the promise.
pub fn without_clock_error_fails() -> u8
    ensures fooled { ToyFooled }
    ensures breaks { NeedsError }
{
    0
}

// One that counts the clock's error twice keeps too little.
pub fn twice_the_error_fails() -> u8
    ensures { ErrorOnce }
{
    0
}

// One that buffers nothing doesn't keep the promise.
pub fn keeps_nothing_fails() -> u8
    ensures { MustKeep }
{
    0
}

// One that takes any key doesn't keep the promise.
pub fn takes_any_key_fails() -> u8
    ensures { MustCompare }
{
    0
}

// One that looks at the key before its message answers otherwise.
pub fn key_first_differs() -> u8
    ensures { MessageFirst }
{
    0
}

// The worked cases.
pub fn cases_stand() -> u8
    ensures { WorkedCases }
{
    0
}
