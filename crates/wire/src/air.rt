// What comes from the air: a message or a key by itself, and never a tick.
ghost use Rattle.std.specs.Prelude.{◌≡◌, Some, MatchResult};
ghost use Rattle.wire.specs.Air.{event_of, Stands};
ghost use Rattle.wire.specs.Formats.{air_event, Unread};

use crate::key::DisclosedKey;
use crate::kind::Kind;
use crate::message::Message;
use crate::{key, message};
use timing::refusal::Refusal;

#[derive(Clone, Copy, Drop)]
pub enum Air<'a> {
    Message(Message<'a>),
    Key(DisclosedKey<'a>),
}

pub fn read(b: &[u8]) -> Result<Air<'_>, Refusal>
    ensures { MatchResult result (λ a. (air_event b.now ≡ Some (event_of a)) × Stands a) (Unread (air_event b.now)) }
{
    let (first, rest) = b.split_first().ok_or(Refusal::Malformed)?;
    match Kind::try_from(*first)? {
        Kind::Message => {
            // the project asks for a reader's answer taken apart by `let .. else`; `message::read(b)?` is the same
            let Ok(message) = message::read(b) else {
                return Err(Refusal::Malformed);
            };
            Ok(Air::Message(message))
        }
        Kind::Key => Ok(Air::Key(key::read_part(rest)?)),
        Kind::Tick | Kind::Delivery => Err(Refusal::Malformed),
    }
}
