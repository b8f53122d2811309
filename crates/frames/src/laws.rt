// What is written is read back, and cut frames are refused.
ghost use Rattle.frames.specs.Frames.{WrittenRead, FrontsRefused};

pub fn frames_stand() -> u8
    ensures written { WrittenRead }
    ensures fronts { FrontsRefused }
{
    0
}
