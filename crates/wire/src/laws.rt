// What holds of the formats, for all values and all bytes.
ghost use Rattle.wire.specs.Laws.{WrittenRead, ReadWritten, UnderTagApart, FrontsRefused, NoTickFromAir};

// What is written is read back as it was, in all five formats.
pub fn written_is_read() -> u8
    ensures { WrittenRead }
{
    0
}

// What is read, written again, gives the same bytes.
pub fn read_is_written() -> u8
    ensures { ReadWritten }
{
    0
}

// Two messages that say different things never have the same bytes under the tag.
pub fn under_tag_apart_stands() -> u8
    ensures { UnderTagApart }
{
    0
}

// A record that is cut is refused, wherever it is cut.
pub fn fronts_are_refused() -> u8
    ensures { FrontsRefused }
{
    0
}

// Nothing from the air is a tick.
pub fn no_tick_from_air_stands() -> u8
    ensures { NoTickFromAir }
{
    0
}
