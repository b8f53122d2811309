// Receivers, each with a clock, and what they hear.
ghost use Rattle.std.specs.Prelude.{◌≡◌, ◌≤◌, ◌++◌, length, vec_items, MatchResult};
ghost use Rattle.timing.specs.Clocks.{clocks_answer, clocks_after};
ghost use Rattle.timing.specs.Time.{parameters_of};
ghost use Rattle.scenario.specs.Scenes.{at_zero, clock_answer, clock_after, arrivals};
ghost use Rattle.script.specs.Stops.{Gives};
ghost use Rattle.script.specs.declared.stop.Stop.TheVariants.{NoMemory};

use crate::arrival::Arrival;
use script::stop::Stop;
use std::alloc::Global;
use timing::clocks;
use timing::parameters::Parameters;
use timing::refusal::Refusal;

// The most receivers of a script.
const MOST: u64 = 10000;

// As many clocks, all at 0.
pub fn at_zero(heap: Global, count: u64) -> Result<Vec<u64>, Stop>
    ensures { Gives vec_items result (at_zero count) }
{
    if !(1..=MOST).contains(&count) {
        return Err(Stop::Fault(Refusal::OutOfRange));
    }
    Ok(vec![in heap; 0u64; count as usize]?)
}

#[derive(Drop)]
pub struct Receivers {
    pub parameters: Parameters,
    // what every clock shows
    pub clocks: Vec<u64>,
    // the oldest first
    pub heard: Vec<Arrival>,
    ghost some: { 1 ≤ length clocks.items },
}

impl Receivers {
    // Every clock set at once, or none.
    pub fn tell(&mut self, ticks: &[u64]) -> Result<(), Refusal>
        ensures answer { result ≡ clocks_answer self.old.clocks.items ticks.now }
        ensures clocks { self.new.clocks.items ≡ clocks_after self.old.clocks.items ticks.now }
        ensures parameters { self.new.parameters ≡ self.old.parameters }
        ensures heard { self.new.heard ≡ self.old.heard }
    {
        clocks::tell_all(self.clocks.as_mut_slice(), ticks)
    }

    // One clock set; receivers count from 1.
    pub fn tell_one(&mut self, receiver: u64, tick: u64) -> Result<(), Refusal>
        ensures answer { result ≡ clock_answer self.old.clocks.items receiver tick }
        ensures clocks { self.new.clocks.items ≡ clock_after self.old.clocks.items receiver tick }
        ensures parameters { self.new.parameters ≡ self.old.parameters }
        ensures heard { self.new.heard ≡ self.old.heard }
    {
        if !(1..=self.clocks.len() as u64).contains(&receiver) {
            return Err(Refusal::OutOfRange);
        }
        let clock = &mut self.clocks[(receiver - 1) as usize];
        *clock = clocks::told(*clock, tick)?;
        Ok(())
    }

    // One message heard by every receiver.
    pub fn hear(&mut self, line: u64, interval: u32) -> Result<(), Stop>
        ensures heard { MatchResult result (λ _. self.new.heard.items ≡ self.old.heard.items ++ arrivals (parameters_of self.old.parameters) line interval 1 self.old.clocks.items) (λ e. e ≡ NoMemory) }
        ensures clocks { self.new.clocks ≡ self.old.clocks }
        ensures parameters { self.new.parameters ≡ self.old.parameters }
    {
        hear(
            self.parameters,
            line,
            interval,
            self.clocks.as_slice(),
            &mut self.heard,
        )
    }
}

// What every receiver makes of a message, behind what was heard.
fn hear(
    parameters: Parameters,
    line: u64,
    interval: u32,
    clocks: &[u64],
    heard: &mut Vec<Arrival>,
) -> Result<(), Stop>
    ensures { MatchResult result (λ _. heard.new.items ≡ heard.old.items ++ arrivals (parameters_of parameters) line interval 1 clocks.now) (λ e. e ≡ NoMemory) }
{
    for (i, clock) in clocks.iter().enumerate() {
        heard.push(Arrival {
            line,
            interval,
            receiver: i as u64 + 1,
            clock: *clock,
            judgement: parameters.judge(*clock, interval),
        })?;
    }
    Ok(())
}
