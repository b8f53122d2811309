// What stands while a script is followed.
ghost use Rattle.std.specs.Prelude.{false};
ghost use Rattle.script.specs.Commands.{meant};
ghost use Rattle.script.specs.Stops.{Gives};

use crate::arrival::Arrival;
use crate::receivers;
use crate::receivers::Receivers;
use script::command;
use script::command::Command;
use script::reader::Follow;
use script::stop::Stop;
use std::alloc::Global;
use std::mem;
use timing::parameters::Parameters;
use timing::refusal::Refusal;

#[derive(Drop)]
pub enum Scene {
    // no settings yet
    Bare,
    // no receivers yet
    Settled(Parameters),
    Open(Receivers),
    // nothing comes after `end`
    Ended(Receivers),
}

impl Scene {
    ghost use Rattle.script.specs.Reading.{in_place};
    ghost use Rattle.scenario.specs.States.{state_of, with_receivers, obeyed, messaged};

    // A message of this interval reaches every receiver.
    fn message(receivers: &mut Receivers, line: u64, interval: u64) -> Result<(), Stop>
        ensures { Gives (λ _. with_receivers receivers.new false) result (messaged line (with_receivers receivers.old false) interval) }
    {
        // `has_interval` takes 16 bits, and an interval of a script has 64
        if !(1..=u64::from(receivers.parameters.last)).contains(&interval) {
            return Err(Stop::Fault(Refusal::OutOfRange));
        }
        receivers.hear(line, interval as u32)
    }

    // A command, which has to be in its place.
    pub fn obey(&mut self, heap: Global, line: u64, command: Command) -> Result<(), Stop>
        ensures { Gives state_of (in_place self.new result) (obeyed line (state_of self.old) (meant command)) }
    {
        match (&mut *self, command) {
            (Scene::Bare, Command::Settings(numbers)) => {
                *self = Scene::Settled(Parameters::try_from(numbers)?);
            }
            (Scene::Settled(parameters), Command::Receivers(count)) => {
                *self = Scene::Open(Receivers {
                    parameters: *parameters,
                    clocks: receivers::at_zero(heap, count)?,
                    heard: Vec::new(heap),
                });
            }
            (Scene::Open(receivers), Command::Clocks(ticks)) => receivers.tell(ticks.as_slice())?,
            (Scene::Open(receivers), Command::Clock { receiver, tick }) => {
                receivers.tell_one(receiver, tick)?;
            }
            (Scene::Open(receivers), Command::Message(interval)) => {
                Scene::message(receivers, line, interval)?;
            }
            (Scene::Open(_), Command::End) => {
                // by a swap, since nothing can be moved out of what is lent
                if let Scene::Open(receivers) = mem::replace(self, Scene::Bare) {
                    *self = Scene::Ended(receivers);
                }
            }
            _ => return Err(Stop::Fault(Refusal::Malformed)),
        }
        Ok(())
    }
}

impl Follow for Scene {
    ghost use Rattle.std.specs.Prelude.{vec_items};
    ghost use Rattle.script.specs.Commands.{line_of};
    ghost use Rattle.script.specs.Stops.{Gives};
    ghost use Rattle.script.specs.Text.{words};
    ghost use Rattle.scenario.specs.States.{state_of, stepped, ended};

    type Read = Vec<Arrival>;

    ghost steps = { λ s n t r. Gives state_of r (stepped n (state_of s) (line_of (words t))) };

    ghost ends = { λ s r. Gives vec_items r (ended (state_of s)) };

    fn follow(&mut self, heap: Global, line: u64, text: &[u8]) -> Result<(), Stop> {
        match command::parse(heap, text)? {
            Some(command) => self.obey(heap, line, command),
            None => Ok(()),
        }
    }

    // What was heard, if the script has its end.
    fn finish(self) -> Result<Vec<Arrival>, Stop> {
        match self {
            Scene::Ended(receivers) => Ok(receivers.heard),
            _ => Err(Stop::Fault(Refusal::Malformed)),
        }
    }
}
