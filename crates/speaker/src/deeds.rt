// A sender's script: the settings, the drawn key, and what the sender is given, in order.
use orders::command::Command;
use orders::line::parse;
use script::error::Error;
use script::reader;
use script::reader::Follow;
use script::stop::Stop;
use std::alloc::Global;
use std::mem;
use timing::parameters::Parameters;
use timing::refusal::Refusal;

// What the sender is given.
#[derive(Drop)]
pub enum Deed {
    Time(u64),
    Say(Vec<u8>),
}

// A script read whole.
#[derive(Drop)]
pub struct Script {
    pub parameters: Parameters,
    pub drawn: [u8; 32],
    pub deeds: Vec<Deed>,
}

// A script as far as it was read.
#[derive(Drop)]
enum Stage {
    // nothing was read
    Start,
    Settled(Parameters),
    // the drawn key, what the sender is given, and the time by then
    Drawn(Script, u64),
    // `end` was read
    Ended(Script),
    // `end` was read too early, which is told at the next command or at the last line
    Cut,
}

impl Stage {
    // A command, which has to be in its place.
    fn obey(&mut self, heap: Global, command: Command) -> Result<(), Stop> {
        match (&mut *self, command) {
            (Stage::Start, Command::Settings(numbers)) => {
                *self = Stage::Settled(Parameters::try_from(numbers)?);
            }
            (Stage::Settled(parameters), Command::Drawn(key)) => {
                let drawn = <[u8; 32]>::try_from(key.as_slice()).map_err(|_| Refusal::Malformed)?;
                let script = Script {
                    parameters: *parameters,
                    drawn,
                    deeds: Vec::new(heap),
                };
                *self = Stage::Drawn(script, 0);
            }
            (Stage::Drawn(script, time), Command::Time(tick)) => {
                if tick < *time {
                    return Err(Stop::Fault(Refusal::ClockBack));
                }
                script.deeds.push(Deed::Time(tick))?;
                *time = tick;
            }
            (Stage::Drawn(script, _), Command::Say(text)) => script.deeds.push(Deed::Say(text))?,
            (Stage::Start | Stage::Settled(_) | Stage::Drawn(..), Command::End) => self.end(),
            _ => return Err(Stop::Fault(Refusal::Malformed)),
        }
        Ok(())
    }

    // `end` was read; before the drawn key it is too early.
    fn end(&mut self) {
        if let Stage::Drawn(script, _) = mem::replace(self, Stage::Cut) {
            *self = Stage::Ended(script);
        }
    }
}

impl Follow for Stage {
    type Read = Script;

    ghost steps = { λ _ _ _ _. Unit {0} };

    ghost ends = { λ _ _. Unit {0} };

    fn follow(&mut self, heap: Global, _line: u64, text: &[u8]) -> Result<(), Stop> {
        match parse(heap, text)? {
            Some(command) => self.obey(heap, command),
            None => Ok(()),
        }
    }

    fn finish(self) -> Result<Script, Stop> {
        match self {
            Stage::Ended(script) => Ok(script),
            _ => Err(Stop::Fault(Refusal::Malformed)),
        }
    }
}

// A script read whole, or its first fault.
pub fn read(heap: Global, bytes: &[u8]) -> Result<Script, Error> {
    reader::read(heap, Stage::Start, bytes)
}
