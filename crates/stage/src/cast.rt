// The sender, the receivers and the air of a play.
ghost use Rattle.std.specs.Prelude.{◌≡◌};
ghost use Rattle.wire.specs.Values.{key_of};
ghost use Rattle.stage.specs.Scenes.{out_of, newer};

use crate::event::Event;
use buffer::message::Buffered;
use keychain::key::Key;
use receiver::state::Receiver;
use sender::state::Sender;
use wire::key::DisclosedKey;

// The newest key that was disclosed, and its interval; key 0 at first.
// A type beside DisclosedKey, since that borrows its key from the bytes in which it came.
#[derive(Clone, Copy, Drop)]
pub struct Out {
    pub interval: u16,
    pub key: Key,
}

impl From<DisclosedKey<'_>> for Out {
    ghost from_gives = { λ k o. out_of o ≡ key_of k };

    fn from(k: DisclosedKey<'_>) -> Out {
        Out {
            interval: k.interval,
            key: Key { bytes: *k.key },
        }
    }
}

impl Out {
    // One more key that was disclosed.
    pub(crate) fn disclose(&mut self, k: DisclosedKey<'_>)
        ensures { out_of self.new ≡ newer (out_of self.old) (key_of k.entry) }
    {
        if self.interval < k.interval {
            *self = Out::from(k);
        }
    }
}

// time: the real time, which is the sender's clock; air: what was sent, the oldest first;
// said: the messages among it; unsaid: what was delivered and not said, in order.
#[derive(Drop)]
pub struct Cast {
    pub time: u64,
    pub sender: Sender,
    pub receivers: Vec<Receiver>,
    pub air: Vec<Vec<u8>>,
    pub said: Vec<Buffered>,
    pub out: Out,
    pub events: Vec<Event>,
    pub unsaid: Vec<Buffered>,
}
