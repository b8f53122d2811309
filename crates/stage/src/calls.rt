// The calls of a play: what the sender is given, and what reaches receivers.
ghost use Rattle.std.specs.Prelude.{◌≡◌, Some, OnOk};
ghost use Rattle.wire.specs.Fits.{PacketFits};
ghost use Rattle.wire.specs.Formats.{air_event, message_event};
ghost use Rattle.wire.specs.Values.{packet_of};
ghost use Rattle.buffer.specs.Buffers.{as_said, as_message, saids_of};
ghost use Rattle.stage.specs.Scenes.{scene_of, noted, noticed, on_air, time_passed, spoken, clock_told, delivered_one, delivered_all, heard_by, judged_by};

use crate::cast::Cast;
use crate::event::{Deed, Event};
use crate::said::{which_message, which_said};
use buffer::message::Buffered;
use buffer::room::Buffer;
use receiver::calls::{hear_air, hear_clock};
use std::alloc::{AllocError, Global};
use wire::air::Air;
use wire::message::Message;
use wire::{air, clock};

// A message as it was said.
fn kept(m: Message<'_>) -> Buffered
    requires { PacketFits (packet_of m) }
    ensures { as_message result ≡ (packet_of m.entry).message }
{
    let tag = m.tag;
    Buffered::new(m.said.interval, m.said.index, m.said.text, tag).unwrap()
}

// The line goes with each call as a parameter, since nothing else goes with it in all of them.
impl Cast {
    // One event more, now.
    pub fn note(&mut self, line: u64, deed: Deed) -> Result<(), AllocError>
        ensures { OnOk result (scene_of self.new ≡ noted line deed (scene_of self.old)) }
    {
        let time = self.time;
        self.events.push(Event { line, time, deed })?;
        Ok(())
    }

    // A message is said, and the key behind it is out.
    #[tactic(auto, using(crate::proofs::Scened::messages_more))]
    fn notice_message(&mut self, m: Message<'_>) -> Result<(), AllocError>
        requires { PacketFits (packet_of m) }
        ensures { OnOk result (scene_of self.new ≡ noticed (Some (message_event (packet_of m.entry))) (scene_of self.old)) }
    {
        self.out.disclose(m.disclosed);
        self.said.push(kept(m))?;
        Ok(())
    }

    // What is sent is noticed.
    fn notice(&mut self, bytes: &[u8]) -> Result<(), AllocError>
        ensures { OnOk result (scene_of self.new ≡ noticed (air_event bytes.now) (scene_of self.old)) }
    {
        match air::read(bytes) {
            Ok(Air::Message(m)) => self.notice_message(m),
            Ok(Air::Key(k)) => {
                self.out.disclose(k);
                Ok(())
            }
            Err(_) => Ok(()),
        }
    }

    // Bytes of the sender go on the air.
    fn send(&mut self, heap: Global, bytes: &[u8]) -> Result<(), AllocError>
        ensures { OnOk result (scene_of self.new ≡ on_air bytes.now (scene_of self.old)) }
    {
        let record = Vec::from_slice(heap, bytes)?;
        self.air.push(record)?;
        self.notice(bytes)
    }

    // The clock of the sender, which is the real time, and a key that it discloses by itself; one that goes back changes nothing.
    pub fn pass(&mut self, heap: Global, line: u64, tick: u64) -> Result<(), AllocError>
        ensures { OnOk result (scene_of self.new ≡ time_passed line tick (scene_of self.old)) }
    {
        let Ok(sent) = self.sender.tick(tick) else {
            return Ok(());
        };
        self.time = tick;
        self.note(line, Deed::Passed)?;
        let Some(key) = sent else {
            return Ok(());
        };
        let record = self.air.len() as u64 + 1;
        self.send(heap, &key)?;
        self.note(line, Deed::Disclosed { record })
    }

    // The sender says a text, or refuses to.
    pub fn say(&mut self, heap: Global, line: u64, text: &[u8]) -> Result<(), AllocError>
        ensures { OnOk result (scene_of self.new ≡ spoken line text.now (scene_of self.old)) }
    {
        let mut memory = [0u8; 256];
        // A match and no `?`, since a refusal is noted.
        let count = match self.sender.say(text, &mut memory) {
            Ok(count) => count,
            Err(e) => return self.note(line, Deed::NotSaid(e)),
        };
        let record = self.air.len() as u64 + 1;
        self.send(heap, &memory[..count])?;
        let message = self.said.len();
        self.note(line, Deed::Said { record, message })
    }

    // A receiver is told a tick of its own clock; places count from 0, and one that isn't there is told nothing.
    pub fn tell(&mut self, line: u64, place: usize, tick: u64) -> Result<(), AllocError>
        ensures { OnOk result (scene_of self.new ≡ clock_told line place tick (scene_of self.old)) }
    {
        let Some(told) = self.receivers.get_mut(place) else {
            return Ok(());
        };
        let _ = hear_clock(told, &clock::write(tick));
        let receiver = place as u64 + 1;
        self.note(line, Deed::Told { receiver, tick })
    }

    // A receiver delivers a message.
    fn deliver(&mut self, line: u64, receiver: u64, m: &Buffered) -> Result<(), AllocError>
        ensures { OnOk result (scene_of self.new ≡ delivered_one line receiver (as_said m.now) (scene_of self.old)) }
    {
        let message = which_said(self.said.as_slice(), m.said());
        self.note(line, Deed::Delivered { receiver, message })?;
        if message.is_none() {
            self.unsaid.push(*m)?;
        }
        Ok(())
    }

    // A receiver delivers messages, in their order.
    fn deliver_all(&mut self, line: u64, receiver: u64, out: &Buffer) -> Result<(), AllocError>
        ensures { OnOk result (scene_of self.new ≡ delivered_all line receiver (saids_of out.now) (scene_of self.old)) }
    {
        for m in out.messages() {
            self.deliver(line, receiver, m)?;
        }
        Ok(())
    }

    // Bytes reach a receiver, which delivers; they have the number of the record that they are brought as. Places count from 0, and one that isn't there hears nothing.
    pub fn hear(
        &mut self,
        line: u64,
        number: Option<u64>,
        place: usize,
        bytes: &[u8],
    ) -> Result<(), AllocError>
        ensures { OnOk result (scene_of self.new ≡ heard_by line number place bytes.now (scene_of self.old)) }
    {
        let Some(hearer) = self.receivers.get_mut(place) else {
            return Ok(());
        };
        let clock = hearer.clock;
        let mut out = Buffer::new();
        let answer = hear_air(hearer, bytes, &mut out);
        let receiver = place as u64 + 1;
        let message = which_message(self.said.as_slice(), bytes);
        let deed = Deed::Heard {
            receiver,
            clock,
            record: number,
            message,
            outcome: answer.outcome,
        };
        self.note(line, deed)?;
        self.deliver_all(line, receiver, &out)
    }

    // A message of an interval, by a receiver's clock alone; places count from 0, and one that isn't there judges nothing.
    pub fn judge(&mut self, line: u64, place: usize, interval: u32) -> Result<(), AllocError>
        ensures { OnOk result (scene_of self.new ≡ judged_by line place interval (scene_of self.old)) }
    {
        let Some(r) = self.receivers.get(place) else {
            return Ok(());
        };
        let clock = r.clock;
        let judgement = r.parameters.judge(clock, interval);
        let receiver = place as u64 + 1;
        let deed = Deed::Judged {
            receiver,
            clock,
            interval,
            judgement,
        };
        self.note(line, deed)
    }
}
