// A sender's calls, and what they are in the model: steps of its sender, for every world that the sender stands for.
ghost use Rattle.std.specs.Prelude.{◌≡◌, Ok};
ghost use Rattle.sha256.specs.Hmac.{hmac};
ghost use Rattle.timing.specs.Time.{parameters_of};
ghost use Rattle.model.specs.Receiver.{ours};
ghost use Rattle.model.specs.Run.{start as first_world};
ghost use Rattle.keychain.specs.Chain.{drawing};
ghost use Rattle.wire.specs.Setup.{settings_answer};
ghost use Rattle.sender.specs.Of.{state_of};
ghost use Rattle.sender.specs.State.{setup_for, Ticks, Says};
ghost use Rattle.sender_laws.specs.Run.{tick as event_tick, say as event_say};
ghost use Rattle.sender_laws.specs.Worlds.{Stands, MovesWorlds};

use keychain::key::Key;
use sender::state::Sender;
use timing::parameters::Parameters;
use timing::refusal::Refusal;

// A sender before its first tick, and the bytes of its settings, which are read as they were.
#[tactic(auto, using(crate::proofs::Ends::settings_told))]
pub fn begin(parameters: Parameters, start: u64, drawn: [u8; 32]) -> (Sender, [u8; 47])
    ensures world { Stands (parameters_of parameters) (state_of result.0) (first_world (parameters_of parameters) (drawing drawn) (ours (parameters_of parameters) hmac)) }
    ensures settings { settings_answer result.1 ≡ Ok (setup_for (parameters_of parameters) drawn start) }
{
    Sender::new(parameters, start, Key { bytes: drawn })
}

// The clock is t now: refused, nothing, or the key that is sent by itself.
#[tactic(auto, using(crate::proofs::Worlds::moves_at))]
pub fn tick(sender: &mut Sender, t: u64) -> Result<Option<[u8; 35]>, Refusal>
    ensures call { Ticks (state_of sender.old) t (state_of sender.new) result }
    ensures worlds { MovesWorlds (state_of sender.old) (event_tick t) (state_of sender.new) }
{
    sender.tick(t)
}

// Says a text in the interval of the clock: the message at the front of the memory, and how many bytes it has.
// The memory is the caller's and fixed, since there is no heap.
#[tactic(auto, using(crate::proofs::Worlds::moves_at))]
pub fn say(sender: &mut Sender, text: &[u8], out: &mut [u8; 256]) -> Result<usize, Refusal>
    ensures call { Says (state_of sender.old) text.now (state_of sender.new) result out.old out.new }
    ensures worlds { MovesWorlds (state_of sender.old) (event_say text.now) (state_of sender.new) }
{
    sender.say(text, out)
}
