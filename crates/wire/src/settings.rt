// The settings that a receiver begins with.
ghost use Rattle.std.specs.Prelude.{◌≡◌, length, Ok, Err, MatchResult, ◌≢◌};
ghost use Rattle.timing.specs.Time.{params};
ghost use Rattle.timing.specs.declared.refusal.Refusal.TheVariants.{Malformed};
ghost use Rattle.wire.specs.Settings.{settings_of};
ghost use Rattle.wire.specs.Setup.{setup, setup_in, settings_answer, settings_encoded};

use timing::parameters::{Numbers, Parameters};
use timing::refusal::Refusal;

// `start` is the date of the first tick, and `commitment` key 0.
#[derive(Clone, Copy, Drop)]
pub struct Settings {
    pub start: u64,
    pub parameters: Parameters,
    pub commitment: [u8; 32],
}

// The parts of settings: the date, numbers that may be out of range, and key 0.
fn parts(b: &[u8]) -> Result<(u64, Numbers, [u8; 32]), Refusal>
    ensures { MatchResult result (λ p. (length b.now ≡ 47) × (setup p.0 (params p.1.ticks p.1.delay p.1.error p.1.last) p.2 ≡ setup_in b.now)) (λ e. (e ≡ Malformed) × (length b.now ≢ 47)) }
{
    let (start, rest) = b.split_first_chunk().ok_or(Refusal::Malformed)?;
    let (ticks, rest) = rest.split_first_chunk().ok_or(Refusal::Malformed)?;
    let (delay, rest) = rest.split_first().ok_or(Refusal::Malformed)?;
    let (error, rest) = rest.split_first_chunk().ok_or(Refusal::Malformed)?;
    let (last, rest) = rest.split_first_chunk().ok_or(Refusal::Malformed)?;
    let commitment = <[u8; 32]>::try_from(rest).map_err(|_| Refusal::Malformed)?;
    let numbers = Numbers {
        ticks: u64::from(u16::from_be_bytes(*ticks)),
        delay: u64::from(*delay),
        error: u64::from(u16::from_be_bytes(*error)),
        last: u64::from(u16::from_be_bytes(*last)),
    };
    Ok((u64::from_be_bytes(*start), numbers, commitment))
}

pub fn read(b: &[u8]) -> Result<Settings, Refusal>
    ensures { MatchResult result (λ s. settings_answer b.now ≡ Ok (settings_of s)) (λ e. settings_answer b.now ≡ Err e) }
{
    let (start, numbers, commitment) = parts(b)?;
    let parameters = Parameters::try_from(numbers)?;
    Ok(Settings {
        start,
        parameters,
        commitment,
    })
}

pub fn write(s: Settings) -> [u8; 47]
    ensures { result ≡ settings_encoded (settings_of s) }
{
    let p = s.parameters;
    let mut out = [0; 47];
    out[0..8].copy_from_slice(&s.start.to_be_bytes());
    out[8..10].copy_from_slice(&p.ticks.to_be_bytes());
    out[10] = p.delay;
    out[11..13].copy_from_slice(&p.error.to_be_bytes());
    out[13..15].copy_from_slice(&p.last.to_be_bytes());
    out[15..].copy_from_slice(&s.commitment);
    out
}
