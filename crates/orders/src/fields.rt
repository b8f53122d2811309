// The fields of commands, from what stands behind the first word.
ghost use Rattle.std.specs.Prelude.{◌≡◌, Ok, vec_items};
ghost use Rattle.script.specs.Stops.{Gives};
ghost use Rattle.script.specs.Text.{words};
ghost use Rattle.orders.specs.Orders.{meant, hex_word, whom_of, drawn_by, say_by, bring_of, bytes_of, counted_order};

use crate::command::{Command, Whom};
use crate::hex;
use crate::keyword::Counted;
use script::stop::Stop;
use script::text;
use std::alloc::Global;
use timing::parameters::Numbers;
use timing::refusal::Refusal;

// A command whose fields are all numbers. Script's has other words, so one function for both would be a layer more.
pub fn with_numbers(word: Counted, numbers: Vec<u64>) -> Result<Command, Stop>
    ensures { Gives meant result (counted_order word numbers.items) }
{
    let command = match (word, numbers.as_slice()) {
        (Counted::Play, []) => Command::Play,
        (Counted::Settings, &[ticks, delay, error, last]) => Command::Settings(Numbers {
            ticks,
            delay,
            error,
            last,
        }),
        (Counted::Receivers, &[count]) => Command::Receivers(count),
        (Counted::Time, &[tick]) => Command::Time(tick),
        (Counted::Clock, &[receiver, tick]) => Command::Clock { receiver, tick },
        (Counted::Clocks, _) => Command::Clocks(numbers),
        (Counted::End, []) => Command::End,
        _ => return Err(Stop::Fault(Refusal::Malformed)),
    };
    Ok(command)
}

// The bytes that the only word stands for.
fn hex_word(heap: Global, fields: &[u8]) -> Result<Vec<u8>, Stop>
    ensures { Gives vec_items result (hex_word (words fields.now)) }
{
    let (word, after) = text::next_word(fields).ok_or(Refusal::Malformed)?;
    if text::next_word(after).is_some() {
        return Err(Stop::Fault(Refusal::Malformed));
    }
    hex::bytes(heap, word)
}

// A number of a receiver, or `all`.
#[tactic(auto, unfolding(crate::specs::Orders::whom_of))]
fn whom(word: &[u8]) -> Option<Whom>
    ensures { result ≡ whom_of word.now }
{
    if word == b"all".as_slice() {
        return Some(Whom::All);
    }
    text::number(word).map(Whom::One)
}

pub fn drawn(heap: Global, fields: &[u8]) -> Result<Command, Stop>
    ensures { Gives meant result (drawn_by (hex_word (words fields.now))) }
{
    let key = hex_word(heap, fields)?;
    if key.len() != 32 {
        return Err(Stop::Fault(Refusal::Malformed));
    }
    Ok(Command::Drawn(key))
}

// A text has at most 200 bytes.
pub fn say(text: Vec<u8>) -> Result<Command, Stop>
    ensures { Gives meant result (say_by (Ok text.items)) }
{
    if text.len() > 200 {
        return Err(Stop::Fault(Refusal::Malformed));
    }
    Ok(Command::Say(text))
}

pub fn say_text(heap: Global, text: &[u8]) -> Result<Command, Stop>
    ensures { Gives meant result (say_by (Ok text.now)) }
{
    let text = Vec::from_slice(heap, text)?;
    say(text)
}

pub fn say_hex(heap: Global, fields: &[u8]) -> Result<Command, Stop>
    ensures { Gives meant result (say_by (hex_word (words fields.now))) }
{
    let text = hex_word(heap, fields)?;
    say(text)
}

pub fn bring(fields: &[u8]) -> Result<Command, Stop>
    ensures { Gives meant result (bring_of (words fields.now)) }
{
    let (record, after) = text::next_word(fields).ok_or(Refusal::Malformed)?;
    let (to, after) = text::next_word(after).ok_or(Refusal::Malformed)?;
    if text::next_word(after).is_some() {
        return Err(Stop::Fault(Refusal::Malformed));
    }
    let record = text::number(record).ok_or(Refusal::Malformed)?;
    let to = whom(to).ok_or(Refusal::Malformed)?;
    Ok(Command::Bring { record, to })
}

pub fn bytes(heap: Global, fields: &[u8]) -> Result<Command, Stop>
    ensures { Gives meant result (bytes_of (words fields.now)) }
{
    let (to, after) = text::next_word(fields).ok_or(Refusal::Malformed)?;
    let to = whom(to).ok_or(Refusal::Malformed)?;
    let bytes = hex_word(heap, after)?;
    Ok(Command::Bytes { to, bytes })
}
