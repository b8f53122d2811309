// What is promised of every run of a sender, and its calls in the model's worlds.
#![tactic(auto)]

ghost use Rattle.sender_laws.specs.Ends.{BothEnds, BroughtBack};
ghost use Rattle.sender_laws.specs.Run.{NoTwice, NoneEarly, ByItself, WorkedOnce};
ghost use Rattle.sender_laws.specs.Turned.{InTurn, OutOfTurn, OneOfTwo, AllWithin, HeardAgain};
ghost use Rattle.sender_laws.specs.Worlds.{Lawful, StandsFirst, Undisturbed, Genuine};

pub mod calls;

// What is said, and the keys that are sent by themselves and worked out.
pub fn runs_stand() -> u8
    ensures twice { NoTwice }
    ensures early { NoneEarly }
    ensures alone { ByItself }
    ensures worked { WorkedOnce }
{
    0
}

// The turns of disclosure.
pub fn turns_stand() -> u8
    ensures turned { InTurn }
    ensures out_of_turn { OutOfTurn }
    ensures two { OneOfTwo }
    ensures all { AllWithin }
    ensures again { HeardAgain }
{
    0
}

// Every call is by the model's steps, and what is sent is genuine.
pub fn worlds_stand() -> u8
    ensures lawful { Lawful }
    ensures first { StandsFirst }
    ensures undisturbed { Undisturbed }
    ensures genuine { Genuine }
{
    0
}

// What is sent is heard, and brings back a receiver that missed any number of intervals.
pub fn both_ends_stand() -> u8
    ensures heard { BothEnds }
    ensures back { BroughtBack }
{
    0
}
