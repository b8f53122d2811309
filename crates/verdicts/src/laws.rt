// What holds of every verdict.
ghost use Rattle.verdicts.specs.Laws.{VerdictsHold};

pub fn verdicts_stand() -> u8
    ensures { VerdictsHold }
{
    0
}
