// The public calls: bytes of the receiver's own clock and bytes from the air, each with what they come to.
ghost use Rattle.std.specs.Prelude.{◌≡◌, ℕ, List, [], Some};
ghost use Rattle.sha256.specs.Hmac.{hmac};
ghost use Rattle.timing.specs.Time.{Params, parameters_of};
ghost use Rattle.model.specs.Receiver.{first_state, ours};
ghost use Rattle.model.specs.Run.{key_bytes, start};
ghost use Rattle.keychain.specs.Chain.{drawing};
ghost use Rattle.model.specs.Receiver.{ticked};
ghost use Rattle.wire.specs.Fits.{PacketFits};
ghost use Rattle.wire.specs.Formats.{message_event, key_event};
ghost use Rattle.wire.specs.Values.{packet_of, key_of};
ghost use Rattle.buffer.specs.Buffers.{saids_of};
ghost use Rattle.receiver.specs.Calls.{event_of, own_clock, from_air};
ghost use Rattle.receiver.specs.Heard.{Ticked, Heard};
ghost use Rattle.receiver.specs.State.{state_of};
ghost use Rattle.receiver.specs.Worlds.{Worlds, Stands, CallStands, PromiseOnCalls, SameCalls};

use crate::outcome::{Accepted, Outcome};
use crate::rules;
use crate::state::Receiver;
use buffer::room::Buffer;
use keychain::key::Key;
use timing::clocks::told;
use timing::refusal::Refusal;
use wire::air::Air;
use wire::key::DisclosedKey;
use wire::message::Message;
use wire::settings::Settings;
use wire::{air, clock};

// What an input came to, and how many steps of the key chain and how many tags were worked out for it.
#[derive(Clone, Copy, Drop)]
pub struct Answer {
    pub outcome: Outcome,
    pub steps: u32,
    pub tags: usize,
}

// A tick of the receiver's own clock.
fn tell(r: &mut Receiver, tick: u64) -> Outcome
    ensures { Ticked (Some (ticked tick)) r.old r.new result }
{
    r.clock = told(r.clock, tick)?;
    Ok(Accepted::Told)
}

// Bytes of the receiver's own clock.
pub fn hear_clock(r: &mut Receiver, bytes: &[u8]) -> Outcome
    ensures { Ticked (event_of (own_clock bytes.now)) r.old r.new result }
{
    let Ok(tick) = clock::read(bytes) else {
        return Err(Refusal::Malformed);
    };
    tell(r, tick)
}

// A message and the key disclosed behind it: the message is judged first.
fn hear_message(r: &mut Receiver, m: Message<'_>, out: &mut Buffer) -> Answer
    requires { PacketFits (packet_of m) }
    ensures { Heard (Some (message_event (packet_of m.entry))) r.old r.new result (saids_of out.new) }
{
    let said = m.said;
    let tag = m.tag;
    let disclosed = m.disclosed;
    let outcome = rules::hear(r, said, tag);
    let key = Key {
        bytes: *disclosed.key,
    };
    let learned = rules::learn(r, disclosed.interval, key, out);
    Answer { outcome, ..learned }
}

// A key by itself.
fn hear_key(r: &mut Receiver, k: DisclosedKey<'_>, out: &mut Buffer) -> Answer
    ensures { Heard (Some (key_event (key_of k.entry))) r.old r.new result (saids_of out.new) }
{
    let key = Key { bytes: *k.key };
    rules::learn(r, k.interval, key, out)
}

// Bytes from the air.
#[tactic(auto, using(buffer::proofs::Lists::saids_none))]
pub fn hear_air(r: &mut Receiver, bytes: &[u8], out: &mut Buffer) -> Answer
    ensures { Heard (event_of (from_air bytes.now)) r.old r.new result (saids_of out.new) }
{
    match air::read(bytes) {
        Ok(Air::Message(m)) => hear_message(r, m, out),
        Ok(Air::Key(k)) => hear_key(r, k, out),
        Err(e) => {
            out.clear();
            Answer {
                outcome: Err(e),
                steps: 0,
                tags: 0,
            }
        }
    }
}

impl Receiver {
    // A receiver before anything was heard.
    pub fn new(s: Settings) -> Receiver
        ensures parameters { result.parameters ≡ s.parameters }
        ensures state { state_of result ≡ first_state s.commitment }
        ensures stands { (d : List ℕ) (n : ℕ) → s.commitment ≡ key_bytes (parameters_of s.parameters) (drawing d) 0 → Stands (parameters_of s.parameters) n result (start (parameters_of s.parameters) (drawing d) (ours (parameters_of s.parameters) hmac)) }
    {
        let bytes = s.commitment;
        Receiver {
            parameters: s.parameters,
            clock: 0,
            newest: 0,
            key: Key { bytes },
            buffer: Buffer::new(),
        }
    }

    // Bytes of its own clock.
    pub fn clock(self, bytes: &[u8]) -> (Receiver, Outcome)
        ensures ticked { Ticked (event_of (own_clock bytes.now)) self result.0 result.1 }
        ensures stands { (p : Params) (n : ℕ) (w : Worlds p) → Stands p n self w → CallStands p n (own_clock bytes.now) result.0 [] w }
    {
        let mut r = self;
        let outcome = hear_clock(&mut r, bytes);
        (r, outcome)
    }

    // Bytes from the air, with what is delivered.
    pub fn air(self, bytes: &[u8]) -> (Receiver, Answer, Buffer)
        ensures heard { Heard (event_of (from_air bytes.now)) self result.0 result.1 (saids_of result.2) }
        ensures stands { (p : Params) (n : ℕ) (w : Worlds p) → Stands p n self w → CallStands p n (from_air bytes.now) result.0 (saids_of result.2) w }
    {
        let mut r = self;
        let mut out = Buffer::new();
        let answer = hear_air(&mut r, bytes, &mut out);
        (r, answer, out)
    }
}

// The promise over every sequence of these calls.
pub fn promise_stands() -> u8
    ensures promise { PromiseOnCalls }
    ensures calls { SameCalls }
{
    0
}
