// A disclosed key with its interval, behind a message or by itself.
ghost use Rattle.std.specs.Prelude.{◌≡◌, length, replicate, if◌then◌else◌, Ok, Err, MatchResult, ◌≢◌};
ghost use Rattle.timing.specs.Time.{parameters_of};
ghost use Rattle.timing.specs.declared.refusal.Refusal.TheVariants.{Malformed, OutOfRange};
ghost use Rattle.model.specs.Receiver.{in_chain};
ghost use Rattle.wire.specs.Fits.{KeyFits};
ghost use Rattle.wire.specs.Formats.{key_part, key_encoded};
ghost use Rattle.wire.specs.Values.{key_of};

use crate::kind::Kind;
use timing::parameters::Parameters;
use timing::refusal::Refusal;

// Interval 0: no key, and its bytes are not looked at.
#[derive(Clone, Copy, Drop)]
pub struct DisclosedKey<'a> {
    pub interval: u16,
    pub key: &'a [u8; 32],
}

impl DisclosedKey<'_> {
    // No key, as the sender writes it.
    pub fn none() -> DisclosedKey<'static>
        ensures { key_of result ≡ record { interval = 0; key = replicate 32 0 } }
    {
        DisclosedKey {
            interval: 0,
            key: &[0; 32],
        }
    }

    // Whether its interval is one of the chain.
    pub fn in_range(self, p: Parameters) -> Result<(), Refusal>
        ensures { result ≡ (if in_chain (parameters_of p) self.entry.interval then Ok tt else Err OutOfRange) }
    {
        if !p.has_interval(self.interval) {
            return Err(Refusal::OutOfRange);
        }
        Ok(())
    }
}

// An interval and a key, and nothing behind them.
pub(crate) fn read_part(b: &[u8]) -> Result<DisclosedKey<'_>, Refusal>
    ensures { MatchResult result (λ k. (b.now ≡ key_part (key_of k)) × KeyFits (key_of k)) (λ e. (e ≡ Malformed) × (length b.now ≢ 34)) }
{
    let (interval, key) = b.split_first_chunk().ok_or(Refusal::Malformed)?;
    let key = <&[u8; 32]>::try_from(key).map_err(|_| Refusal::Malformed)?;
    let interval = u16::from_be_bytes(*interval);
    Ok(DisclosedKey { interval, key })
}

// A key by itself.
pub fn write(k: DisclosedKey<'_>) -> [u8; 35]
    ensures { result ≡ key_encoded (key_of k.entry) }
{
    let DisclosedKey { interval, key } = k;
    let mut out = [0; 35];
    out[0] = u8::from(Kind::Key);
    out[1..3].copy_from_slice(&interval.to_be_bytes());
    out[3..].copy_from_slice(key);
    out
}
