// How far a play has come.
ghost use Rattle.simulation.specs.Plays.{Followed, Concludes};

use crate::cast::Cast;
use hearings::event::Event;
use keychain::key::Key;
use orders::command::Command;
use orders::line::parse;
use script::reader::Follow;
use script::stop::Stop;
use std::alloc::Global;
use std::mem;
use timing::parameters::Parameters;
use timing::refusal::Refusal;

#[derive(Drop)]
pub enum Stage {
    // nothing was read
    Dark,
    // it is a play
    Opened,
    Settled(Parameters),
    Drawn(Parameters, Key),
    Playing(Cast),
    // `end` was read
    Ended(Vec<Event>),
}

fn key(bytes: &[u8]) -> Result<Key, Refusal> {
    let bytes = <[u8; 32]>::try_from(bytes).map_err(|_| Refusal::Malformed)?;
    Ok(Key { bytes })
}

impl Stage {
    // A command, which has to be in its place.
    fn obey(&mut self, heap: Global, line: u64, command: Command) -> Result<(), Stop> {
        match (&mut *self, command) {
            (Stage::Dark, Command::Play) => *self = Stage::Opened,
            (Stage::Opened, Command::Settings(numbers)) => {
                *self = Stage::Settled(Parameters::try_from(numbers)?);
            }
            (Stage::Settled(parameters), Command::Drawn(bytes)) => {
                *self = Stage::Drawn(*parameters, key(bytes.as_slice())?);
            }
            (Stage::Drawn(parameters, drawn), Command::Receivers(count)) => {
                *self = Stage::Playing(Cast::new(heap, *parameters, *drawn, count)?);
            }
            (Stage::Playing(_), Command::End) => {
                // by a swap, since nothing can be moved out of what is lent
                if let Stage::Playing(cast) = mem::replace(self, Stage::Dark) {
                    *self = Stage::Ended(cast.events);
                }
            }
            (Stage::Playing(cast), command) => cast.perform(line, command)?,
            _ => return Err(Stop::Fault(Refusal::Malformed)),
        }
        Ok(())
    }
}

impl Follow for Stage {
    type Read = Vec<Event>;

    ghost steps = { λ _ _ t r. Followed t r };

    ghost ends = { Concludes };

    fn follow(&mut self, heap: Global, line: u64, text: &[u8]) -> Result<(), Stop> {
        match parse(heap, text)? {
            Some(command) => self.obey(heap, line, command),
            None => Ok(()),
        }
    }

    // What happened by the end, which has to be said.
    fn finish(self) -> Result<Vec<Event>, Stop> {
        match self {
            Stage::Ended(events) => Ok(events),
            _ => Err(Stop::Fault(Refusal::Malformed)),
        }
    }
}
