// Intervals and the safety test, exact at every 64-bit tick.
ghost use Rattle.std.specs.Prelude.{◌≡◌, ◌+◌, true, false, ◌&&◌, nat_le, nat_lt, MatchResult};
ghost use Rattle.timing.specs.Time.{params, parameters_of, in_range, interval_at, opening, may_be_out, too_early};
ghost use Rattle.timing.specs.Judged.{judged};
ghost use Rattle.timing.specs.declared.refusal.Refusal.TheVariants.{BadSettings};

use crate::parameters::{Numbers, Parameters};
use crate::refusal::Refusal;

// The most intervals that one key chain serves.
pub const MOST_SPANS: u16 = 16384;

impl Parameters {
    // The numbers as parameters, if they are within their limits.
    pub fn new(ticks: u16, delay: u8, error: u16, last: u16) -> Result<Parameters, Refusal>
        ensures { MatchResult result (λ p. (parameters_of p ≡ params ticks delay error last) × (in_range (params ticks delay error last) ≡ true)) (λ e. (e ≡ BadSettings) × (in_range (params ticks delay error last) ≡ false)) }
    {
        if !(1..=3600).contains(&ticks)
            || !(1..=8).contains(&delay)
            || !(1..=MOST_SPANS).contains(&last)
        {
            return Err(Refusal::BadSettings);
        }
        if 2 * u32::from(error) >= u32::from(ticks) * u32::from(delay) {
            return Err(Refusal::BadSettings);
        }
        Ok(Parameters {
            ticks,
            delay,
            error,
            last,
        })
    }

    // The interval of a tick.
    pub fn interval_at(self, tick: u64) -> u128
        ensures { result ≡ interval_at (parameters_of self) tick }
    {
        u128::from(tick) / u128::from(self.ticks) + 1
    }

    // The first tick of an interval.
    pub fn opening(self, interval: u32) -> u64
        ensures { result ≡ opening (parameters_of self) interval }
    {
        u64::from(interval.saturating_sub(1)) * u64::from(self.ticks)
    }

    // Whether the key of an interval may be out when the clock shows this.
    pub fn may_be_out(self, clock: u64, interval: u32) -> bool
        ensures { result ≡ may_be_out (parameters_of self) clock interval }
    {
        u128::from(interval) + u128::from(self.delay) <= self.latest(clock) / u128::from(self.ticks)
    }

    // Whether an interval begins more than the clock's error after what it shows.
    pub fn too_early(self, clock: u64, interval: u32) -> bool
        ensures { result ≡ too_early (parameters_of self) clock interval }
    {
        self.latest(clock) < u128::from(self.opening(interval))
    }

    // Whether the chain has an interval.
    pub fn has_interval(self, interval: u16) -> bool
        ensures { result ≡ (nat_lt 0 interval && nat_le interval self.last) }
    {
        (1..=self.last).contains(&interval)
    }

    // What a message of an interval comes to, by time alone, that is heard when the clock shows this.
    pub fn judge(self, clock: u64, interval: u32) -> Result<(), Refusal>
        ensures { result ≡ judged (parameters_of self) clock interval }
    {
        if self.may_be_out(clock, interval) {
            return Err(Refusal::TooLate);
        }
        if self.too_early(clock, interval) {
            return Err(Refusal::TooEarly);
        }
        Ok(())
    }

    // The latest that the real time can be.
    fn latest(self, clock: u64) -> u128
        ensures { result ≡ clock + self.error }
    {
        u128::from(clock) + u128::from(self.error)
    }
}

impl TryFrom<Numbers> for Parameters {
    type Error = Refusal;

    ghost try_from_gives = { λ n r. MatchResult r (λ p. (parameters_of p ≡ params n.ticks n.delay n.error n.last) × (in_range (params n.ticks n.delay n.error n.last) ≡ true)) (λ e. (e ≡ BadSettings) × (in_range (params n.ticks n.delay n.error n.last) ≡ false)) };

    fn try_from(n: Numbers) -> Result<Parameters, Refusal> {
        let (Ok(ticks), Ok(delay), Ok(error), Ok(last)) = (
            u16::try_from(n.ticks),
            u8::try_from(n.delay),
            u16::try_from(n.error),
            u16::try_from(n.last),
        ) else {
            return Err(Refusal::BadSettings);
        };
        Parameters::new(ticks, delay, error, last)
    }
}
