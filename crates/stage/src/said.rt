// Which message that was said something is.
ghost use Rattle.std.specs.Prelude.{◌≡◌, ◌<◌, ◌≤◌, ◌&&◌, reverse, length, IfSome, Some, ◌==◌, nat_le, position, take_while};
ghost use Rattle.wire.specs.Formats.{air_event, message_event};
ghost use Rattle.wire.specs.Values.{said_of, packet_of};
ghost use Rattle.buffer.specs.Buffers.{messages_in};
ghost use Rattle.buffer.specs.declared.message.Buffered.{Buffered as BufferedOne};
ghost use Rattle.stage.specs.Saids.{place_of, which_said, which_message};

use buffer::message::Buffered;
use wire::air;
use wire::air::Air;
use wire::message::Message;
use wire::said::Said;

// How many messages were said after the newest of an interval and index: from the newest back, and no further than its interval.
fn said_after(said: &[Buffered], interval: u16, index: u8) -> Option<usize>
    ensures { result ≡ position (λ (m : BufferedOne). m.numbers.interval == interval && m.numbers.index == index) (take_while (λ (m : BufferedOne). nat_le interval m.numbers.interval) (reverse said.now)) }
{
    said.iter()
        .rev()
        .take_while(|m| m.numbers.interval >= interval)
        .position(|m| m.numbers.interval == interval && m.numbers.index == index)
}

// The place of that message, from 1.
#[tactic(auto, using(crate::proofs::Places::place_found))]
fn place(said: &[Buffered], interval: u16, index: u8) -> Option<usize>
    ensures is { result ≡ place_of (messages_in said.now) interval index }
    ensures within { IfSome result (λ k. (0 < k) × (k ≤ length said.now)) }
{
    let back = said_after(said, interval, index)?;
    Some(said.len() - back)
}

// The place, from 1, of what was said just so.
#[tactic(auto, using(crate::proofs::Places::says_at))]
pub fn which_said(said: &[Buffered], s: Said<'_>) -> Option<usize>
    ensures is { result ≡ which_said (messages_in said.now) (said_of s.entry) }
    ensures within { IfSome result (λ k. (0 < k) × (k ≤ length said.now)) }
{
    let k = place(said, s.interval, s.index)?;
    (said[k - 1].text() == s.text).then_some(k)
}

// The place, from 1, of the message that was said so with this tag.
#[tactic(auto, using(crate::proofs::Places::tag_at))]
fn which_tagged(said: &[Buffered], m: Message<'_>) -> Option<usize>
    ensures { result ≡ which_message (messages_in said.now) (Some (message_event (packet_of m.entry))) }
{
    let k = which_said(said, m.said)?;
    (said[k - 1].tag == *m.tag).then_some(k)
}

// The place, from 1, of the message that some bytes are, its tag included.
pub fn which_message(said: &[Buffered], bytes: &[u8]) -> Option<usize>
    ensures { result ≡ which_message (messages_in said.now) (air_event bytes.now) }
{
    match air::read(bytes) {
        Ok(Air::Message(m)) => which_tagged(said, m),
        Ok(Air::Key(_)) | Err(_) => None,
    }
}
