// The fates of messages, from the events of a play.
ghost use Rattle.std.specs.Prelude.{◌≡◌, ◌*◌, ◌<◌, length, replicate, vec_len, IfSome, IfOk, MatchOption};
ghost use Rattle.timing.specs.Time.{parameters_of};
ghost use Rattle.buffer.specs.Buffers.{messages_in};
ghost use Rattle.verdicts.specs.Fates.{no_fate, is_in_time, is_within, changed_by, place_of, row_of, IsThere, Moved, fate_after, AreFates};
ghost use Rattle.verdicts.specs.Verdicts.{tallied, verdict_of};

use crate::fate::{Fate, Pair, Verdict};
use buffer::message::Buffered;
use stage::event::{Deed, Event};
use std::alloc::{AllocError, Global};
use timing::parameters::Parameters;

// Whether a message of an interval that reaches a receiver at a real time is in time: twice the error of a clock later, its key can't be out yet.
pub fn in_time(p: Parameters, interval: u16, time: u64) -> bool
    ensures { result ≡ is_in_time (parameters_of p) interval time }
{
    let release = u32::from(interval) + u32::from(p.delay) + 1;
    u128::from(time) + 2 * u128::from(p.error) < u128::from(p.opening(release))
}

// Whether a clock is wrong by no more than its error.
pub fn within(p: Parameters, time: u64, clock: u64) -> bool
    ensures { result ≡ is_within (parameters_of p) time clock }
{
    let error = u128::from(p.error);
    u128::from(time) <= u128::from(clock) + error && u128::from(clock) <= u128::from(time) + error
}

// A fate after an event that tells of its message, of this interval, at its receiver.
fn changed(p: Parameters, interval: u16, event: Event, mut fate: Fate) -> Fate
    ensures { result ≡ changed_by (parameters_of p) interval event.time event.deed fate }
{
    match event.deed {
        Deed::Heard { clock, outcome, .. } if in_time(p, interval, event.time) => {
            fate.reached(within(p, event.time, clock), outcome)
        }
        Deed::Delivered { .. } => {
            fate.delivered = true;
            fate
        }
        _ => fate,
    }
}

// A play: its settings, the messages that were said, what happened, and how many receivers there are.
#[derive(Clone, Copy, Drop)]
pub struct Play<'a> {
    pub parameters: Parameters,
    pub said: &'a [Buffered],
    pub events: &'a [Event],
    pub receivers: usize,
}

impl Play<'_> {
    // For each message that was said, in their order, the fates at all receivers, in their order.
    pub fn fates(self, heap: Global) -> Result<Fates, AllocError>
        ensures messages { IfOk result (λ t. t.messages ≡ length self.entry.said.now) }
        ensures receivers { IfOk result (λ t. t.receivers ≡ self.entry.receivers) }
        ensures fates { IfOk result (λ t. AreFates (parameters_of self.entry.parameters) (messages_in self.entry.said.now) self.entry.events.now self.entry.receivers t.all.items) }
    {
        let mut fates = Fates::blank(heap, self.said.len(), self.receivers)?;
        for event in self.events {
            fates.note(self.parameters, self.said, *event);
        }
        Ok(fates)
    }
}

// The fates of all messages at all receivers: those of one message stand together, in the order of the receivers.
#[derive(Debug, Drop)]
pub struct Fates {
    pub messages: usize,
    pub receivers: usize,
    pub all: Vec<Fate>,
    ghost whole: { vec_len all ≡ messages * receivers },
}

impl Fates {
    // Nothing has become of any message.
    fn blank(heap: Global, messages: usize, receivers: usize) -> Result<Fates, AllocError>
        ensures messages { IfOk result (λ t. t.messages ≡ messages) }
        ensures receivers { IfOk result (λ t. t.receivers ≡ receivers) }
        ensures all { IfOk result (λ t. t.all.items ≡ replicate (messages * receivers) no_fate) }
    {
        let row = vec![in heap; Fate::default(); receivers]?;
        let mut all = Vec::new(heap);
        for _message in 0..messages {
            all.extend_from_slice(row.as_slice())?;
        }
        Ok(Fates {
            messages,
            receivers,
            all,
        })
    }

    // The place of a fate, if there are such a message and such a receiver.
    // An index and no `chunks_exact_mut`, since a proof learns nothing of what is written through that.
    fn place(&self, pair: Pair) -> Option<usize>
        ensures there { MatchOption result (IsThere self.now.messages self.now.receivers pair → ⊥) (λ at. IsThere self.now.messages self.now.receivers pair × (at ≡ place_of self.now.receivers pair.message pair.receiver)) }
        ensures below { IfSome result (λ at. at < vec_len self.now.all) }
    {
        let row = pair.message.checked_sub(1)?;
        let column = (pair.receiver as usize).checked_sub(1)?;
        if row >= self.messages || column >= self.receivers {
            return None;
        }
        Some(row * self.receivers + column)
    }

    // One event more.
    fn note(&mut self, p: Parameters, said: &[Buffered], event: Event)
        requires { length said.now ≡ self.old.messages }
        ensures messages { self.new.messages ≡ self.old.messages }
        ensures receivers { self.new.receivers ≡ self.old.receivers }
        ensures moved { Moved (λ k n f. fate_after (parameters_of p) (messages_in said.now) k n f event) self.old.messages self.old.receivers self.old.all.items self.new.all.items }
    {
        let Some(pair) = Pair::of(event.deed) else {
            return;
        };
        let Some(at) = self.place(pair) else {
            return;
        };
        let interval = said[pair.message - 1].numbers.interval;
        self.all[at] = changed(p, interval, event, self.all[at]);
    }

    // Those of one message at all receivers; none if there is no such message.
    pub fn of_message(&self, message: usize) -> &[Fate]
        ensures { result.now ≡ row_of self.now.receivers message self.now.all.items }
    {
        of_message(self.all.as_slice(), self.receivers, message)
    }
}

// The same of any list in which the fates of each message stand together.
// A range and no `chunks_exact`, which takes no rows of no receivers.
pub fn of_message(fates: &[Fate], receivers: usize, message: usize) -> &[Fate]
    ensures { result.now ≡ row_of receivers message fates.now }
{
    let Some(end) = message.checked_mul(receivers) else {
        return &[];
    };
    if message < 1 || end > fates.len() {
        return &[];
    }
    &fates[end - receivers..end]
}

// One fate after the other, for all five numbers: a chain for each takes nine times as long.
#[tactic(auto, unfolding(crate::specs::Verdicts::nothing))]
fn tally(fates: &[Fate]) -> Verdict
    ensures { result ≡ tallied fates.now }
{
    fates
        .iter()
        .fold(Verdict::default(), |v, fate| v.with(*fate))
}

// What became of one message, from its fates at all receivers.
#[tactic(auto, using(crate::proofs::Counts::tallied_whole))]
pub fn verdict(fates: &[Fate]) -> Verdict
    ensures { result ≡ verdict_of fates.now }
{
    tally(fates)
}
