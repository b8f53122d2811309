// The clocks of receivers: a clock may stand and jump, and never goes back.
ghost use Rattle.std.specs.Prelude.{◌≡◌, length};
ghost use Rattle.timing.specs.Clocks.{tick_answer, clocks_answer, clocks_after, goes_back};

use crate::refusal::Refusal;

// What a clock shows after a tick was told.
pub fn told(clock: u64, tick: u64) -> Result<u64, Refusal>
    ensures { result ≡ tick_answer clock tick }
{
    if tick < clock {
        return Err(Refusal::ClockBack);
    }
    Ok(tick)
}

// Whether one of the ticks is lower than its clock.
fn any_back(clocks: &[u64], ticks: &[u64]) -> bool
    requires { length clocks.now ≡ length ticks.now }
    ensures { result ≡ goes_back clocks.now ticks.now }
{
    clocks.iter().zip(ticks).any(|(clock, tick)| tick < clock)
}

// All clocks set to the ticks that they show now, or none.
pub fn tell_all(clocks: &mut [u64], ticks: &[u64]) -> Result<(), Refusal>
    ensures answer { result ≡ clocks_answer clocks.old ticks.now }
    ensures clocks { clocks.new ≡ clocks_after clocks.old ticks.now }
{
    if clocks.len() != ticks.len() {
        return Err(Refusal::Malformed);
    }
    if any_back(clocks, ticks) {
        return Err(Refusal::ClockBack);
    }
    clocks.copy_from_slice(ticks);
    Ok(())
}
