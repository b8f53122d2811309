// A line of a script as a command.
ghost use Rattle.std.specs.Prelude.{◌≡◌};
ghost use Rattle.std.specs.Option.{option_map};
ghost use Rattle.script.specs.Commands.{keyword_of, meant, order_of, command_of, line_of};
ghost use Rattle.script.specs.Stops.{Gives};
ghost use Rattle.script.specs.Text.{words, numbers};

use crate::keyword::Keyword;
use crate::stop::Stop;
use crate::text;
use std::alloc::Global;
use timing::parameters::Numbers;
use timing::refusal::Refusal;

#[derive(Drop)]
pub enum Command {
    // the numbers of the settings
    Settings(Numbers),
    // how many receivers there are
    Receivers(u64),
    // what every clock shows now
    Clocks(Vec<u64>),
    // what one clock shows now; receivers count from 1
    Clock { receiver: u64, tick: u64 },
    // a message of this interval reaches every receiver
    Message(u64),
    End,
}

// A command of its fields, all of which are numbers.
pub fn with_numbers(keyword: Keyword, numbers: Vec<u64>) -> Result<Command, Stop>
    ensures { Gives meant result (order_of keyword numbers.items) }
{
    let command = match (keyword, numbers.as_slice()) {
        (Keyword::Settings, &[ticks, delay, error, last]) => Command::Settings(Numbers {
            ticks,
            delay,
            error,
            last,
        }),
        (Keyword::Receivers, &[count]) => Command::Receivers(count),
        (Keyword::Clocks, _) => Command::Clocks(numbers),
        (Keyword::Clock, &[receiver, tick]) => Command::Clock { receiver, tick },
        (Keyword::Message, &[interval]) => Command::Message(interval),
        (Keyword::End, []) => Command::End,
        _ => return Err(Stop::Fault(Refusal::Malformed)),
    };
    Ok(command)
}

// The command that a word begins, with these fields.
pub fn begun_by(heap: Global, word: &[u8], fields: &[u8]) -> Result<Command, Stop>
    ensures { Gives meant result (command_of (keyword_of word.now) (numbers (words fields.now))) }
{
    let keyword = Keyword::try_from(word)?;
    let numbers = text::numbers(heap, fields)?;
    with_numbers(keyword, numbers)
}

// A line as a command; an empty line and a comment are none.
pub fn parse(heap: Global, line: &[u8]) -> Result<Option<Command>, Stop>
    ensures { Gives (option_map meant) result (line_of (words line.now)) }
{
    let Some((word, fields)) = text::next_word(line) else {
        return Ok(None);
    };
    if word.starts_with(b"#") {
        return Ok(None);
    }
    let command = begun_by(heap, word, fields)?;
    Ok(Some(command))
}
