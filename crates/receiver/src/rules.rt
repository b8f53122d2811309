// The receiver's rules for a message and for a key.
ghost use Rattle.std.specs.Prelude.{◌≡◌, ℕ, ◌-◌, ◌≤◌, List, true, Some};
ghost use Rattle.sha256.specs.Hmac.{hmac};
ghost use Rattle.keychain.specs.Chain.{walk_outcome_of};
ghost use Rattle.model.specs.Receiver.{has_room, right_up_to, later_than, key_steps, hears, disclosed};
ghost use Rattle.model.specs.Receiver.{judge as judge_by, judge_key as judge_key_by};
ghost use Rattle.buffer.specs.Buffers.{as_message, fits_buffer, with_tag, messages_of, saids_of, KeysOf};
ghost use Rattle.receiver.specs.State.{meant, params_of, state_of, Wants};
ghost use Rattle.receiver.specs.Heard.{Became, Heard};
ghost use Rattle.wire.specs.Values.{said_of};

use crate::calls::Answer;
use crate::outcome::{Accepted, Outcome};
use crate::state::Receiver;
use buffer::message::Buffered;
use buffer::room::Buffer;
use keychain::key::Key;
use keychain::{PLACES, Walked, walk};
use timing::refusal::Refusal;
use wire::said::Said;

// At most so many messages are buffered, and of an interval.
const ROOM: usize = 64;

const ROOM_OF_INTERVAL: usize = 16;

// Whether there is room for one more of an interval.
#[tactic(auto, using(buffer::proofs::Lists::count_is))]
fn has_room(buffer: &Buffer, interval: u16) -> bool
    ensures { result ≡ has_room (messages_of buffer.now) interval }
{
    buffer.len < ROOM && buffer.of_interval(interval) < ROOM_OF_INTERVAL
}

// What a message comes to, the lowest number first.
fn judge(r: &Receiver, m: &Buffered) -> Outcome
    ensures { meant result ≡ judge_by (params_of r.now) (state_of r.now) (as_message m.now) }
{
    let interval = m.numbers.interval;
    if !r.parameters.has_interval(interval) || m.numbers.index > 63 {
        return Err(Refusal::OutOfRange);
    }
    if r.buffer.has(m) {
        return Ok(Accepted::Already);
    }
    if r.parameters.may_be_out(r.clock, u32::from(interval)) {
        return Err(Refusal::TooLate);
    }
    if interval <= r.newest {
        return Err(Refusal::KeyHad);
    }
    if r.parameters.too_early(r.clock, u32::from(interval)) {
        return Err(Refusal::TooEarly);
    }
    if !has_room(&r.buffer, interval) {
        return Err(Refusal::NoRoom);
    }
    Ok(Accepted::Buffered)
}

// The message judged, and buffered where it is to be.
#[tactic(auto, using(crate::proofs::Judged::buffered_after))]
pub(crate) fn hear(r: &mut Receiver, said: Said<'_>, tag: &[u8]) -> Outcome
    requires { fits_buffer said.text.now tag.now ≡ true }
    ensures state { Became r.old r.new (hears (params_of r.old) (with_tag (said_of said.entry) tag.now) (state_of r.old)) }
    ensures outcome { meant result ≡ judge_by (params_of r.old) (state_of r.old) (with_tag (said_of said.entry) tag.now) }
{
    let m = Buffered::new(said.interval, said.index, said.text, tag)?;
    let done = judge(r, &m)?;
    if let Accepted::Buffered = done {
        r.buffer.push(m);
    }
    Ok(done)
}

// How many intervals before interval j each buffered message has its own; more than there are for one that is later.
fn wanted(buffer: &Buffer, j: u16) -> [u32; PLACES]
    ensures { Wants j buffer.now result }
{
    let mut before = [65536; PLACES];
    // By the place, not by a zip with `before.iter_mut()`: nothing is known of what is written through that.
    for (i, m) in buffer.messages().iter().enumerate() {
        if m.numbers.interval <= j {
            before[i] = u32::from(j - m.numbers.interval);
        }
    }
    before
}

// What a key comes to, how many keys were worked out for it, and those that the buffered messages want.
fn try_key(r: &Receiver, j: u16, key: Key) -> Walked
    ensures outcome { walk_outcome_of result.outcome ≡ judge_key_by (params_of r.now) hmac j key.bytes (state_of r.now) }
    ensures steps { result.steps ≡ key_steps (params_of r.now) j (state_of r.now) }
    ensures keys { result.outcome ≡ Ok tt → (r.now.newest ≤ j) × KeysOf r.now.newest j key.bytes r.now.buffer result.keys }
{
    if !r.parameters.has_interval(j) {
        return Walked {
            outcome: Err(Refusal::OutOfRange),
            steps: 0,
            keys: [Key::ZERO; PLACES],
        };
    }
    let before = wanted(&r.buffer, j);
    walk(key, u32::from(j), u32::from(r.newest), r.key, &before)
}

// Takes the key of interval j, and delivers. Gives how many tags were worked out.
fn take_key(r: &mut Receiver, j: u16, key: Key, keys: &[Key; PLACES], out: &mut Buffer) -> usize
    ensures tags { r.old.newest ≤ j → result ≤ 64 }
    ensures state { Became r.old r.new (record { clock = r.old.clock; newest = j; key = key.bytes; buffer = later_than j (messages_of r.old.buffer) }) }
    ensures delivered { (k : List ℕ) → r.old.newest ≤ j → KeysOf r.old.newest j k r.old.buffer keys.now → saids_of out.new ≡ right_up_to hmac k (j - r.old.newest) j (messages_of r.old.buffer) }
{
    let tags = r.buffer.deliver(r.newest, j, keys, out);
    r.buffer.forget(j);
    r.newest = j;
    r.key = key;
    tags
}

// The rule for a key said to be of interval j.
#[tactic(auto, using(buffer::proofs::Lists::saids_none))]
pub(crate) fn learn(r: &mut Receiver, j: u16, key: Key, out: &mut Buffer) -> Answer
    ensures { Heard (Some (disclosed j key.bytes)) r.old r.new result (saids_of out.new) }
{
    let w = try_key(r, j, key);
    match w.outcome {
        Ok(()) => Answer {
            outcome: Ok(Accepted::Taken),
            steps: w.steps,
            tags: take_key(r, j, key, &w.keys, out),
        },
        Err(e) => {
            out.clear();
            Answer {
                outcome: Err(e),
                steps: w.steps,
                tags: 0,
            }
        }
    }
}
