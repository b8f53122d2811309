// The buffer of a receiver: messages that wait for their key, in fixed memory.
#![tactic(auto)]

pub mod message;
pub mod room;

ghost use Rattle.std.specs.Prelude.{◌≡◌, ℕ, ◌+◌, ◌-◌, ◌<◌, ◌≤◌, true, false, List, [], ◌∷◌, ◌++◌, length, take, if◌then◌else◌, MatchResult, nat_lt};
ghost use Rattle.std.specs.List.{list_any};
ghost use Rattle.sha256.specs.Hmac.{hmac};
ghost use Rattle.timing.specs.declared.refusal.Refusal.TheVariants.{Malformed};
ghost use Rattle.model.specs.Receiver.{same_message, is_in, of_interval, later_than, is_right, right_of, right_up_to};
ghost use Rattle.wire.specs.Values.{said_of};
ghost use Rattle.buffer.specs.Buffers.{as_said, as_message, message_by, messages_of, saids_of, OneKey, KeysOf, up_to, fits_buffer};

use crate::message::{Buffered, Numbers};
use crate::room::Buffer;
use keychain::PLACES;
use keychain::key::Key;
use timing::refusal::Refusal;
use wire::message as wired;
use wire::said::Said;

impl Buffered {
    // A message as it is buffered; one with a text or a tag of another length is refused.
    pub fn new(interval: u16, index: u8, text: &[u8], tag: &[u8]) -> Result<Buffered, Refusal>
        ensures { MatchResult result (λ m. (as_message m ≡ message_by interval index text.now tag.now) × (fits_buffer text.now tag.now ≡ true)) (λ e. (e ≡ Malformed) × (fits_buffer text.now tag.now ≡ false)) }
    {
        if text.len() > 200 {
            return Err(Refusal::Malformed);
        }
        let tag = <[u8; 16]>::try_from(tag).map_err(|_| Refusal::Malformed)?;
        let mut bytes = [0; 200];
        bytes[..text.len()].copy_from_slice(text);
        let numbers = Numbers {
            interval,
            index,
            len: text.len() as u8,
        };
        Ok(Buffered {
            numbers,
            text: bytes,
            tag,
        })
    }

    // Its text.
    pub fn text(&self) -> &[u8]
        ensures { result.now ≡ take self.now.numbers.len self.now.text }
    {
        &self.text[..usize::from(self.numbers.len)]
    }

    // What it says.
    pub fn said(&self) -> Said<'_>
        ensures { said_of result ≡ as_said self.now }
    {
        Said {
            interval: self.numbers.interval,
            index: self.numbers.index,
            text: self.text(),
        }
    }

    // Whether the tag is right under the key of the message's interval.
    pub fn is_right(&self, key: Key) -> bool
        ensures { result ≡ is_right hmac key.bytes (as_message self.now) }
    {
        let mut under_tag = [0; 256];
        let count = wired::write_under_tag(self.said(), &mut under_tag).unwrap();
        key.authenticates(&under_tag[..count], &self.tag)
    }
}

// Two messages are the same if interval, index, text and tag are; what is behind the text doesn't count.
impl PartialEq for Buffered {
    ghost use Rattle.std.proofs.Common.{rules};
    ghost use Rattle.std.specs.Cmp.Rules.{comparing};
    ghost use Rattle.model.specs.Receiver.{same_message};
    ghost use Rattle.buffer.specs.Buffers.{as_message};

    ghost eq = { λ a b. same_message (as_message a) (as_message b) };

    ghost laws = { Prim.search (comparing, rules) };

    fn eq(&self, other: &Buffered) -> bool {
        self.numbers.interval == other.numbers.interval
            && self.numbers.index == other.numbers.index
            && self.text() == other.text()
            && self.tag == other.tag
    }
}

impl Eq for Buffered {
    ghost use Rattle.std.proofs.Common.{rules};
    ghost use Rattle.std.specs.Cmp.Rules.{comparing};

    ghost laws = { Prim.search (comparing, rules) };
}

// Whether one equal to it is among them.
fn is_among(k: &Buffered, messages: &[Buffered]) -> bool
    ensures { result ≡ list_any (λ m. same_message (as_message k.now) (as_message m)) messages.now }
{
    messages.iter().any(|m| k == m)
}

impl Buffer {
    #[tactic(auto, unfolding(crate::specs::Buffers::messages_in))]
    pub fn new() -> Buffer
        ensures count { result.len ≡ 0 }
        ensures messages { messages_of result ≡ [] }
    {
        let numbers = Numbers {
            interval: 0,
            index: 0,
            len: 0,
        };
        let none = Buffered {
            numbers,
            text: [0; 200],
            tag: [0; 16],
        };
        Buffer {
            messages: [none; 64],
            len: 0,
        }
    }

    // Those that are there.
    pub fn messages(&self) -> &[Buffered]
        ensures { result.now ≡ take self.now.len self.now.messages }
    {
        &self.messages[..self.len]
    }

    #[tactic(auto, unfolding(crate::specs::Buffers::messages_in))]
    pub fn clear(&mut self)
        ensures count { self.new.len ≡ 0 }
        ensures messages { messages_of self.new ≡ [] }
    {
        self.len = 0;
    }

    // One more; a full buffer stays as it is.
    pub fn push(&mut self, k: Buffered)
        ensures count { self.new.len ≡ (if nat_lt self.old.len 64 then self.old.len + 1 else self.old.len) }
        ensures messages { messages_of self.new ≡ (if nat_lt self.old.len 64 then messages_of self.old ++ as_message k ∷ [] else messages_of self.old) }
    {
        if self.len < PLACES {
            self.messages[self.len] = k;
            self.len += 1;
        }
    }

    // Whether one equal to it is in the buffer.
    pub fn has(&self, k: &Buffered) -> bool
        ensures { result ≡ is_in (as_message k.now) (messages_of self.now) }
    {
        is_among(k, self.messages())
    }

    // How many of an interval are in it.
    pub fn of_interval(&self, interval: u16) -> usize
        ensures { result ≡ of_interval interval (messages_of self.now) }
    {
        self.messages()
            .iter()
            .filter(|m| m.numbers.interval == interval)
            .count()
    }

    // Without those of the intervals up to this one.
    pub fn forget(&mut self, upto: u16)
        ensures { messages_of self.new ≡ later_than upto (messages_of self.old) }
    {
        // By index: it writes into the slice that it reads, in fixed memory.
        let mut k = 0;
        for i in 0..self.len {
            let w = self.messages[i];
            if w.numbers.interval > upto {
                self.messages[k] = w;
                k += 1;
            }
        }
        self.len = k;
    }

    // The messages of the intervals after `from`, up to `upto`, whose tags are right by the keys noted for their places
    // (an array beside the messages, in fixed memory):
    // intervals rising, within one in the order in which they came. Gives how many tags were worked out.
    pub fn deliver(&self, from: u16, upto: u16, keys: &[Key; 64], out: &mut Buffer) -> usize
        ensures tags { from ≤ upto → result + up_to from (messages_of self.now) ≡ up_to upto (messages_of self.now) }
        ensures messages { (k : List ℕ) → from ≤ upto → KeysOf from upto k self.now keys.now → saids_of out.new ≡ right_up_to hmac k (upto - from) upto (messages_of self.now) }
    {
        out.clear();
        let mut tags = 0;
        for i in from..upto {
            tags += deliver_interval(self, i + 1, keys, out);
        }
        tags
    }
}

// Adds to `out` the messages of one interval whose tags are right by the keys noted for their places.
fn deliver_interval(buffer: &Buffer, interval: u16, keys: &[Key; 64], out: &mut Buffer) -> usize
    requires { out.old.len + of_interval interval (messages_of buffer.now) ≤ 64 }
    ensures count { out.new.len ≤ out.old.len + of_interval interval (messages_of buffer.now) }
    ensures tags { result ≡ of_interval interval (messages_of buffer.now) }
    ensures messages { (k : List ℕ) → OneKey interval k buffer.now keys.now → saids_of out.new ≡ saids_of out.old ++ right_of hmac k interval (messages_of buffer.now) }
{
    let mut tags = 0;
    for (m, key) in buffer.messages().iter().zip(keys) {
        if m.numbers.interval == interval {
            tags += 1;
            if m.is_right(*key) {
                out.push(*m);
            }
        }
    }
    tags
}
