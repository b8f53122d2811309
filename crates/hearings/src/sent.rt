// What goes on the air, read back from its bytes.
ghost use Rattle.std.specs.Prelude.{◌≡◌, IfOk};
ghost use Rattle.script.specs.Stops.{Gives};
ghost use Rattle.wire.specs.Formats.{air_event};
ghost use Rattle.hearings.specs.Saids.{sayings_of};
ghost use Rattle.hearings.specs.Sents.{record_of, record_in, said_on};

use crate::event::{Saying, Sent};
use crate::said;
use script::stop::Stop;
use std::alloc::Global;
use wire::air;
use wire::air::Air;

pub fn sent(heap: Global, bytes: &[u8]) -> Result<Sent, Stop>
    ensures { Gives record_of result (record_in (air_event bytes.now)) }
{
    match air::read(bytes)? {
        Air::Message(m) => Ok(Sent::Message {
            saying: said::kept(heap, m.said)?,
            disclosed: m.disclosed.interval,
        }),
        Air::Key(k) => Ok(Sent::Key {
            interval: k.interval,
        }),
    }
}

// What the sender said: what the messages on the air say, the oldest first.
pub fn sayings(heap: Global, air: &[Vec<u8>]) -> Result<Vec<Saying>, Stop>
    ensures { IfOk result (λ v. sayings_of v.items ≡ said_on air.now) }
{
    let mut all = Vec::new(heap);
    for record in air {
        if let Sent::Message { saying, .. } = sent(heap, record.as_slice())? {
            all.push(saying)?;
        }
    }
    Ok(all)
}
