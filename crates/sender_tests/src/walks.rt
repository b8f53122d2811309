// A sender beside a key chain kept whole.
ghost use Rattle.std.specs.Prelude.{◌≤◌};

use keychain::key::Key;
use sender::state::Sender;
use std::alloc::{AllocError, Global};
use std::iter;
use timing::parameters::Parameters;
use timing::refusal::Refusal;
use wire::air;
use wire::air::Air;
use wire::key::DisclosedKey;

// What goes wrong on a walk, and in which interval.
#[derive(Clone, Copy, PartialEq, Eq, Debug, Drop)]
pub enum Wrong {
    Memory,
    Refused(Refusal),
    FirstKey,
    Tick(u32),
    Message(u32),
}

impl From<AllocError> for Wrong {
    fn from(_: AllocError) -> Wrong {
        Wrong::Memory
    }
}

impl From<Refusal> for Wrong {
    fn from(e: Refusal) -> Wrong {
        Wrong::Refused(e)
    }
}

// The settings of a chain, and its keys: at place j the key j intervals before the last.
#[derive(Drop)]
struct Whole {
    parameters: Parameters,
    keys: Vec<Key>,
}

impl Whole {
    fn new(heap: Global, parameters: Parameters, drawn: Key) -> Result<Whole, AllocError> {
        let keys = iter::successors(Some(drawn), |key| Some(key.previous()))
            .take(usize::from(parameters.last) + 1)
            .collect(heap)?;
        Ok(Whole { parameters, keys })
    }

    // The key of an interval.
    fn key(&self, interval: u16) -> Option<&Key> {
        let place = self.parameters.last.checked_sub(interval)?;
        self.keys.get(usize::from(place))
    }

    fn has(&self, interval: u16, bytes: &[u8]) -> bool {
        self.key(interval)
            .is_some_and(|key| key.bytes.as_slice() == bytes)
    }

    // The last interval of the chain.
    fn last(&self) -> u32
        ensures { result ≤ 16384 }
    {
        u32::from(self.parameters.last)
    }

    // How long a key waits: its interval, and as many as the delay.
    fn wait(&self) -> u32
        ensures { result ≤ 9 }
    {
        u32::from(self.parameters.delay) + 1
    }

    // The newest interval whose key may be disclosed in an interval, 0 for none.
    fn newest(&self, interval: u32) -> u32 {
        interval.saturating_sub(self.wait()).min(self.last())
    }

    // Whether a key may be disclosed in an interval: it is the newest or a multiple of 1,024, and the whole chain's.
    fn may_tell(&self, interval: u32, told: DisclosedKey<'_>) -> bool {
        let newest = self.newest(interval);
        let key = told.key;
        match u32::from(told.interval) {
            0 => newest == 0,
            i => (i == newest || i < newest && i % 1024 == 0) && self.has(told.interval, key),
        }
    }

    // The interval of a key that was sent by itself, where that is right.
    fn told_alone(&self, interval: u32, sent: &[u8; 35]) -> Option<u16> {
        let Ok(Air::Key(key)) = air::read(sent) else {
            return None;
        };
        self.may_tell(interval, key).then_some(key.interval)
    }

    // Whether a message is right.
    fn may_say(&self, interval: u32, sent: &[u8]) -> bool {
        let Ok(Air::Message(m)) = air::read(sent) else {
            return false;
        };
        u32::from(m.said.interval) == interval
            && self
                .key(m.said.interval)
                .is_some_and(|key| key.authenticates(m.under_tag, m.tag))
            && self.may_tell(interval, m.disclosed)
    }

    // Whether what a sender says is right, or refused past the last interval.
    fn says_right(&self, interval: u32, sender: &mut Sender) -> bool {
        let mut out = [0; 256];
        match sender.say(b"all is well", &mut out) {
            Ok(count) => {
                interval <= self.last()
                    && out
                        .get(..count)
                        .is_some_and(|sent| self.may_say(interval, sent))
            }
            Err(_) => interval > self.last(),
        }
    }
}

// Goes through a chain by ticks so many intervals apart, to two intervals past its end: whether the last key was told at the end.
pub fn walk(heap: Global, last: u16, delay: u8, stride: u32) -> Result<bool, Wrong> {
    let parameters = Parameters::new(10, delay, 0, last)?;
    let drawn = Key { bytes: [delay; 32] };
    let whole = Whole::new(heap, parameters, drawn)?;
    let (mut sender, settings) = Sender::new(parameters, 0, drawn);
    if !whole.has(0, &settings[15..]) {
        return Err(Wrong::FirstKey);
    }
    let end = whole.last() + whole.wait();
    let mut last_told = false;
    for interval in 1..=end + 2 {
        if !(interval - 1).is_multiple_of(stride) {
            continue;
        }
        let due = whole.wait() < interval && interval <= end;
        match sender.tick(10 * (u64::from(interval) - 1))? {
            None if due => return Err(Wrong::Tick(interval)),
            None => {}
            Some(sent) => {
                let told = whole.told_alone(interval, &sent);
                let told = told
                    .filter(|_| interval <= end)
                    .ok_or(Wrong::Tick(interval))?;
                last_told |= told == last && interval == end;
            }
        }
        if !whole.says_right(interval, &mut sender) {
            return Err(Wrong::Message(interval));
        }
    }
    Ok(last_told)
}
