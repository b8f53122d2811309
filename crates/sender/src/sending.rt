// The sender's calls: what it is after each, and the bytes that it sends.
ghost use Rattle.std.specs.Prelude.{◌≡◌, ◌≤◌, min, true, false, length, if◌then◌else◌, MatchResult, ◌≢◌, nat_eq};
ghost use Rattle.std.specs.Option.{option_map};
ghost use Rattle.timing.specs.Time.{params, parameters_of, in_range, interval_at};
ghost use Rattle.timing.specs.declared.refusal.Refusal.TheVariants.{BadSettings};
ghost use Rattle.model.specs.Receiver.{message_bytes};
ghost use Rattle.keychain.specs.Chain.{tagged, zeros};
ghost use Rattle.wire.specs.Bytes.{over};
ghost use Rattle.wire.specs.Formats.{message_encoded, key_encoded};
ghost use Rattle.wire.specs.Setup.{settings_encoded};
ghost use Rattle.wire.specs.Values.{said_of};
ghost use Rattle.segments.specs.Held.{held, drawn_of, last_of};
ghost use Rattle.segments.specs.Held.{key_of as held_key};
ghost use Rattle.segments.specs.Parts.{key_at};
ghost use Rattle.sender.specs.Of.{state_of};
ghost use Rattle.sender.specs.State.{first_state, setup_for, newest_in, interval, newest, key_of, work_at, advanced, due, alone, told_alone, after_said, message_of, may_not, Ticks, Says};

use crate::state::Sender;
use keychain::key::Key;
use segments::parts::Segments;
use timing::parameters::{Numbers, Parameters};
use timing::refusal::Refusal;
use turns::Turn;
use wire::key::DisclosedKey;
use wire::said::Said;
use wire::settings::Settings;

// The interval of a tick; all far ones are one.
fn interval_of(p: Parameters, t: u64) -> u16
    ensures { result ≡ min (interval_at (parameters_of p) t) 65535 }
{
    u16::try_from(p.interval_at(t)).unwrap_or(u16::MAX)
}

// The interval of the newest key that may be disclosed in an interval; 0 for none, as it is sent.
fn newest_in(p: Parameters, i: u16) -> u16
    ensures { result ≡ newest_in (parameters_of p) i }
{
    let wait = u16::from(p.delay) + 1;
    i.saturating_sub(wait).min(p.last)
}

// The key that stands behind a message: zeros for none.
fn shown_key(chain: &Segments, i: u16) -> Key
    requires { (i ≢ 0) → held chain.now i ≡ true }
    ensures { result.bytes ≡ (if nat_eq i 0 then zeros else key_at (last_of chain.now) (drawn_of chain.now) i) }
{
    chain.key(i).unwrap_or(Key::ZERO)
}

// The tag of what is said, under its interval's key; what it is of stands in fixed memory, since there is no heap.
fn tag_of(key: Key, said: Said<'_>) -> [u8; 16]
    requires { length said.text.now ≤ 200 }
    ensures { result ≡ tagged key.bytes (message_bytes (said_of said.entry)) }
{
    let mut bytes = [0u8; 256];
    let count = wire::message::write_under_tag(said, &mut bytes).unwrap();
    key.tag(&bytes[..count])
}

impl Sender {
    // A sender before its first tick, from the key of the last interval, which was drawn; and the bytes of its settings, with key 0.
    // The start and the drawn key go to different places, so no struct holds both.
    pub fn new(parameters: Parameters, start: u64, drawn: Key) -> (Sender, [u8; 47])
        ensures sender { state_of result.0 ≡ first_state (parameters_of parameters) drawn.bytes }
        ensures settings { result.1 ≡ settings_encoded (setup_for (parameters_of parameters) drawn.bytes start) }
    {
        let mut sender = Sender {
            clock: 0,
            index: 0,
            told_in: 0,
            turn: Turn::first(),
            chain: Segments::blank(),
        };
        let commitment = sender.chain.make(parameters, drawn).bytes;
        let settings = wire::settings::write(Settings {
            start,
            parameters,
            commitment,
        });
        (sender, settings)
    }

    // The same from numbers that may be out of range.
    pub fn from_numbers(
        numbers: Numbers,
        start: u64,
        drawn: Key,
    ) -> Result<(Sender, [u8; 47]), Refusal>
        ensures { let p = params numbers.ticks numbers.delay numbers.error numbers.last in MatchResult result (λ m. (in_range p ≡ true) × ((state_of m.0 ≡ first_state p drawn.bytes) × (m.1 ≡ settings_encoded (setup_for p drawn.bytes start)))) (λ e. (in_range p ≡ false) × (e ≡ BadSettings)) }
    {
        Ok(Sender::new(Parameters::try_from(numbers)?, start, drawn))
    }

    // The clock goes on. Gives how many keys were worked out for that.
    fn advance(&mut self, t: u64) -> usize
        ensures after { state_of self.new ≡ advanced (state_of self.old) t }
        ensures worked { result ≡ length (work_at (state_of self.old) t) }
    {
        let p = self.chain.parameters();
        if p.interval_at(t) != p.interval_at(self.clock) {
            self.index = 0;
        }
        self.clock = t;
        self.chain.enter(interval_of(p, t))
    }

    // The interval of the clock; all far ones are one.
    fn current(&self) -> u16
        ensures { result ≡ min (interval (state_of self.now)) 65535 }
    {
        interval_of(self.chain.parameters(), self.clock)
    }

    // The interval of the newest key that may be disclosed now, 0 for none.
    fn newest(&self) -> u16
        ensures { result ≡ newest (state_of self.now) }
    {
        newest_in(self.chain.parameters(), self.current())
    }

    fn is_due(&self) -> bool
        ensures { result ≡ due (state_of self.now) }
    {
        let p = self.chain.parameters();
        let i = self.current();
        i != self.told_in && i <= p.last + u16::from(p.delay) + 1
    }

    // The interval whose key is disclosed by itself now, 0 for none; the turn goes on.
    fn turn_alone(&mut self) -> u16
        requires { due (state_of self.old) ≡ true }
        ensures after { state_of self.new ≡ told_alone (state_of self.old) }
        ensures told { result ≡ alone (state_of self.old) }
    {
        let newest = self.newest();
        self.told_in = self.current();
        if self.told_in > self.chain.parameters().last {
            return newest;
        }
        let (j, turn) = self.turn.next(newest);
        self.turn = turn;
        j
    }

    // The key of an interval as it is sent by itself, where it is held; key 0 is not.
    fn sent_alone(&self, interval: u16) -> Option<[u8; 35]>
        ensures { result ≡ option_map (λ key. key_encoded (record { interval = interval; key = key })) (held_key self.now.chain interval) }
    {
        let key = self.chain.key(interval)?;
        Some(wire::key::write(DisclosedKey {
            interval,
            key: &key.bytes,
        }))
    }

    // The clock is t now; a tick that goes back is refused. Gives the key that is sent by itself.
    #[tactic(auto, unfolding(crate::specs::State::ticked, crate::specs::State::tick_answer))]
    pub fn tick(&mut self, t: u64) -> Result<Option<[u8; 35]>, Refusal>
        ensures { Ticks (state_of self.old) t (state_of self.new) result }
    {
        if t < self.clock {
            return Err(Refusal::ClockBack);
        }
        self.advance(t);
        if !self.is_due() {
            return Ok(None);
        }
        let interval = self.turn_alone();
        Ok(self.sent_alone(interval))
    }

    // The key of the clock's interval.
    fn own_key(&self) -> Key
        requires { may_not (state_of self.now) ≡ false }
        ensures { result.bytes ≡ key_of (state_of self.now) (interval (state_of self.now)) }
    {
        self.chain.key(self.current()).unwrap()
    }

    // Writes the message that is next, and gives its length; the index and the turn go on.
    fn message(&mut self, text: &[u8], out: &mut [u8; 256]) -> usize
        requires short_text { length text.now ≤ 200 }
        requires allowed { may_not (state_of self.old) ≡ false }
        ensures after { state_of self.new ≡ after_said (state_of self.old) }
        ensures length { result ≡ length (message_encoded (message_of (state_of self.old) text.now)) }
        ensures memory { out.new ≡ over (message_encoded (message_of (state_of self.old) text.now)) out.old }
    {
        let (interval, turn) = self.turn.next(self.newest());
        let said = Said {
            interval: self.current(),
            index: self.index,
            text,
        };
        let tag = tag_of(self.own_key(), said);
        let disclosed = DisclosedKey {
            interval,
            key: &shown_key(&self.chain, interval).bytes,
        };
        self.index += 1;
        self.turn = turn;
        wire::message::write(said, &tag, disclosed, out).unwrap()
    }

    fn may_not(&self) -> bool
        ensures { result ≡ may_not (state_of self.now) }
    {
        self.current() > self.chain.parameters().last || self.index > 63
    }

    // Says a text in the interval of the clock: the message at the front of the memory, and how many bytes it has.
    // The memory is the caller's and fixed, since there is no heap.
    #[tactic(auto, unfolding(crate::specs::State::said, crate::specs::State::say_answer))]
    pub fn say(&mut self, text: &[u8], out: &mut [u8; 256]) -> Result<usize, Refusal>
        ensures { Says (state_of self.old) text.now (state_of self.new) result out.old out.new }
    {
        if text.len() > 200 {
            return Err(Refusal::Malformed);
        }
        if self.may_not() {
            return Err(Refusal::OutOfRange);
        }
        Ok(self.message(text, out))
    }
}
