// A line of a play as a command.
ghost use Rattle.std.specs.Option.{option_map};
ghost use Rattle.script.specs.Stops.{Gives};
ghost use Rattle.script.specs.Text.{words, numbers};
ghost use Rattle.orders.specs.Orders.{meant, counted_of, worded_of, by_numbers, worded_order, order_by, line_of};

use crate::command::Command;
use crate::fields;
use crate::keyword::{Counted, Worded};
use script::stop::Stop;
use script::text;
use std::alloc::Global;

fn with_numbers(heap: Global, word: Counted, rest: &[u8]) -> Result<Command, Stop>
    ensures { Gives meant result (by_numbers word (numbers (words rest.now))) }
{
    let numbers = text::numbers(heap, rest)?;
    fields::with_numbers(word, numbers)
}

fn with_words(heap: Global, word: Worded, rest: &[u8]) -> Result<Command, Stop>
    ensures { Gives meant result (worded_order word rest.now) }
{
    match word {
        Worded::Drawn => fields::drawn(heap, rest),
        Worded::Say => fields::say_text(heap, rest),
        Worded::SayHex => fields::say_hex(heap, rest),
        Worded::Bring => fields::bring(rest),
        Worded::Bytes => fields::bytes(heap, rest),
    }
}

// The command that a word begins, with what stands behind it.
fn begun_by(heap: Global, word: &[u8], rest: &[u8]) -> Result<Command, Stop>
    ensures { Gives meant result (order_by (counted_of word.now) (worded_of word.now) rest.now) }
{
    if let Ok(word) = Counted::try_from(word) {
        return with_numbers(heap, word, rest);
    }
    let word = Worded::try_from(word)?;
    with_words(heap, word, rest)
}

// A line as a command; an empty line and a comment are none.
pub fn parse(heap: Global, line: &[u8]) -> Result<Option<Command>, Stop>
    ensures { Gives (option_map meant) result (line_of line.now) }
{
    let Some((word, rest)) = text::next_word(line) else {
        return Ok(None);
    };
    if word.starts_with(b"#") {
        return Ok(None);
    }
    let command = begun_by(heap, word, rest)?;
    Ok(Some(command))
}
