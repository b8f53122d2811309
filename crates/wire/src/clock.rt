// Ticks of a receiver's own clock.
ghost use Rattle.std.specs.Prelude.{◌≡◌, Some, MatchResult};
ghost use Rattle.wire.specs.Formats.{read_tick, tick_encoded, Unread};

use crate::kind::Kind;
use timing::refusal::Refusal;

pub fn read(b: &[u8]) -> Result<u64, Refusal>
    ensures { MatchResult result (λ t. read_tick b.now ≡ Some t) (Unread (read_tick b.now)) }
{
    let tick = b
        .strip_prefix(&[u8::from(Kind::Tick)])
        .ok_or(Refusal::Malformed)?;
    let tick = <[u8; 8]>::try_from(tick).map_err(|_| Refusal::Malformed)?;
    Ok(u64::from_be_bytes(tick))
}

pub fn write(tick: u64) -> [u8; 9]
    ensures { result ≡ tick_encoded tick }
{
    let mut out = [0; 9];
    out[0] = u8::from(Kind::Tick);
    out[1..].copy_from_slice(&tick.to_be_bytes());
    out
}
