// What receivers make of bytes that are brought to them.
ghost use Rattle.std.specs.Prelude.{◌≡◌, length, IfOk, OnOk};
ghost use Rattle.buffer.specs.Buffers.{saids_of};
ghost use Rattle.orders.specs.declared.command.Whom.TheVariants.{One};
ghost use Rattle.receiver.specs.Calls.{from_air, state_after};
ghost use Rattle.receiver.specs.State.{params_of, state_of};
ghost use Rattle.hearings.specs.Saids.{sayings_of, deliveries_of, marked};
ghost use Rattle.hearings.specs.Hearings.{hearing_of, hearings_of, heard_by, heard_from, HeardUpTo, Brings};

use crate::event::{Delivery, Hearing, Saying};
use crate::place::place;
use crate::said::{delivery, kept};
use buffer::room::Buffer;
use orders::command::Whom;
use receiver::calls::hear_air;
use receiver::state::Receiver;
use script::stop::Stop;
use std::alloc::Global;

// What is delivered, each by whether it was said.
pub fn deliveries(heap: Global, said: &[Saying], out: &Buffer) -> Result<Vec<Delivery>, Stop>
    ensures { IfOk result (λ v. deliveries_of v.items ≡ marked (sayings_of said.now) (saids_of out.now)) }
{
    let mut all = Vec::new(heap);
    for m in out.messages() {
        all.push(delivery(said, kept(heap, m.said())?))?;
    }
    Ok(all)
}

// Bytes that are brought, and what the sender had said by then.
#[derive(Clone, Copy, Drop)]
pub struct Brought<'a> {
    pub heap: Global,
    pub said: &'a [Saying],
    pub bytes: &'a [u8],
}

impl Brought<'_> {
    // One receiver hears them.
    pub fn hear(self, receiver: u64, r: &mut Receiver) -> Result<Hearing, Stop>
        ensures state { state_of r.new ≡ state_after (params_of r.old) (from_air self.entry.bytes.now) (state_of r.old) }
        ensures heard { IfOk result (λ h. hearing_of h ≡ heard_by (sayings_of self.entry.said.now) receiver self.entry.bytes.now r.old) }
    {
        let mut out = Buffer::new();
        let answer = hear_air(r, self.bytes, &mut out);
        Ok(Hearing {
            receiver,
            outcome: answer.outcome,
            deliveries: deliveries(self.heap, self.said, &out)?,
        })
    }

    // Every receiver hears them.
    pub fn hear_all(self, receivers: &mut [Receiver]) -> Result<Vec<Hearing>, Stop>
        ensures heard { IfOk result (λ v. hearings_of v.items ≡ heard_from (sayings_of self.entry.said.now) 1 self.entry.bytes.now receivers.old) }
        ensures states { OnOk result (HeardUpTo self.entry.bytes.now (length receivers.old) receivers.old receivers.new) }
    {
        let mut all = Vec::new(self.heap);
        for (i, r) in receivers.iter_mut().enumerate() {
            all.push(self.hear(i as u64 + 1, r)?)?;
        }
        Ok(all)
    }

    // One of the receivers hears them; they count from 1.
    pub fn hear_one(self, receivers: &mut [Receiver], receiver: u64) -> Result<Vec<Hearing>, Stop>
        ensures heard { IfOk result (λ v. Brings (sayings_of self.entry.said.now) (One receiver) self.entry.bytes.now receivers.old (hearings_of v.items)) }
    {
        let i = place(receiver, receivers.len())?;
        let hearing = self.hear(receiver, &mut receivers[i])?;
        Ok(vec![in self.heap; hearing]?)
    }

    // They are brought to one receiver or to all.
    pub fn bring(self, receivers: &mut [Receiver], to: Whom) -> Result<Vec<Hearing>, Stop>
        ensures heard { IfOk result (λ v. Brings (sayings_of self.entry.said.now) to self.entry.bytes.now receivers.old (hearings_of v.items)) }
    {
        match to {
            Whom::All => self.hear_all(receivers),
            Whom::One(receiver) => self.hear_one(receivers, receiver),
        }
    }
}
