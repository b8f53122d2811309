// The sender, the receivers and the air of a play.
ghost use Rattle.std.specs.Prelude.{◌≡◌, [], ◌∷◌, ◌++◌, IfOk, OnOk};
ghost use Rattle.sender.specs.Of.{state_of};
ghost use Rattle.sender.specs.State.{tick_bytes, tick_answer, say_answer};
ghost use Rattle.simulation.specs.Casts.{records_of, tick_sends, say_sends, Hears, HearsAgain, Stays, Does, Performed};

use hearings::event::{Deed, Event};
use hearings::hearing::Brought;
use hearings::place::place;
use hearings::sent::{sayings, sent};
use keychain::key::Key;
use orders::command::{Command, Whom};
use receiver::calls::hear_clock;
use receiver::state::Receiver;
use script::stop::Stop;
use sender::state::Sender;
use std::alloc::Global;
use timing::parameters::Parameters;
use timing::refusal::Refusal;
use wire::{clock, settings};

// The most receivers of a play.
const MOST: u64 = 1000;

#[derive(Drop)]
pub struct Cast {
    pub heap: Global,
    pub sender: Sender,
    pub receivers: Vec<Receiver>,
    // what was sent, the oldest first
    pub air: Vec<Vec<u8>>,
    pub events: Vec<Event>,
}

// A tick of a receiver's own clock; one that goes back is a fault.
fn tell(r: &mut Receiver, tick: u64) -> Result<(), Stop> {
    hear_clock(r, &clock::write(tick))?;
    Ok(())
}

impl Cast {
    // A sender and receivers that have its settings.
    pub fn new(heap: Global, parameters: Parameters, drawn: Key, count: u64) -> Result<Cast, Stop> {
        if !(1..=MOST).contains(&count) {
            return Err(Stop::Fault(Refusal::OutOfRange));
        }
        let (sender, bytes) = Sender::new(parameters, 0, drawn);
        let settings = settings::read(&bytes)?;
        let receivers = vec![in heap; Receiver::new(settings); count as usize]?;
        Ok(Cast {
            heap,
            sender,
            receivers,
            air: Vec::new(heap),
            events: Vec::new(heap),
        })
    }

    // Bytes of the sender go on the air.
    fn send(&mut self, bytes: &[u8]) -> Result<Deed, Stop>
        ensures records { OnOk result (records_of self.new ≡ records_of self.old ++ bytes.now ∷ []) }
        ensures events { self.new.events ≡ self.old.events }
    {
        let sent = sent(self.heap, bytes)?;
        self.air.push(Vec::from_slice(self.heap, bytes)?)?;
        let number = self.air.len() as u64;
        Ok(Deed::Sent { number, sent })
    }

    // The real time: a key that the sender discloses by itself goes on the air.
    fn time(&mut self, tick: u64) -> Result<Option<Deed>, Stop>
        ensures records { OnOk result (records_of self.new ≡ records_of self.old ++ tick_sends (tick_bytes (tick_answer (state_of self.old.sender) tick))) }
        ensures events { self.new.events ≡ self.old.events }
    {
        match self.sender.tick(tick)? {
            Some(key) => Ok(Some(self.send(&key)?)),
            None => Ok(None),
        }
    }

    // The sender says a text, or refuses to.
    fn say(&mut self, text: &[u8]) -> Result<Deed, Stop>
        ensures records { OnOk result (records_of self.new ≡ records_of self.old ++ say_sends (say_answer (state_of self.old.sender) text.now)) }
        ensures events { self.new.events ≡ self.old.events }
    {
        let mut memory = [0u8; 256];
        match self.sender.say(text, &mut memory) {
            Ok(count) => self.send(memory.get(..count).ok_or(Refusal::Malformed)?),
            Err(refusal) => Ok(Deed::NotSaid(refusal)),
        }
    }

    // The clock of one receiver; they count from 1.
    fn clock(&mut self, receiver: u64, tick: u64) -> Result<(), Stop>
        ensures { Stays self.old self.new }
    {
        let i = place(receiver, self.receivers.len())?;
        tell(&mut self.receivers[i], tick)
    }

    // One tick for each receiver.
    fn clocks(&mut self, ticks: &[u64]) -> Result<(), Stop>
        ensures { Stays self.old self.new }
    {
        if ticks.len() != self.receivers.len() {
            return Err(Stop::Fault(Refusal::Malformed));
        }
        for (r, tick) in self.receivers.iter_mut().zip(ticks) {
            tell(r, *tick)?;
        }
        Ok(())
    }

    // Bytes are brought: a record of the air, or made up.
    fn reach(&mut self, number: Option<u64>, to: Whom, bytes: &[u8]) -> Result<Deed, Stop>
        ensures { IfOk result (λ d. Hears number to bytes.now self.old self.new d) }
    {
        let said = sayings(self.heap, self.air.as_slice())?;
        let brought = Brought {
            heap: self.heap,
            said: said.as_slice(),
            bytes,
        };
        let hearings = brought.bring(self.receivers.as_mut_slice(), to)?;
        Ok(Deed::Brought {
            record: number,
            hearings,
        })
    }

    // A record of the air is brought as it was.
    fn bring(&mut self, number: u64, to: Whom) -> Result<Deed, Stop>
        ensures { IfOk result (λ d. HearsAgain number to self.old self.new d) }
    {
        let i = place(number, self.air.len())?;
        let bytes = Vec::from_slice(self.heap, self.air[i].as_slice())?;
        self.reach(Some(number), to, bytes.as_slice())
    }

    // A command while the play goes on, and what is noted of it.
    fn deed(&mut self, command: Command) -> Result<Option<Deed>, Stop>
        ensures { IfOk result (λ d. Does command self.old self.new d) }
    {
        match command {
            Command::Time(tick) => self.time(tick),
            Command::Clock { receiver, tick } => {
                self.clock(receiver, tick)?;
                Ok(None)
            }
            Command::Clocks(ticks) => {
                self.clocks(ticks.as_slice())?;
                Ok(None)
            }
            Command::Say(text) => Ok(Some(self.say(text.as_slice())?)),
            Command::Bring { record, to } => Ok(Some(self.bring(record, to)?)),
            Command::Bytes { to, bytes } => Ok(Some(self.reach(None, to, bytes.as_slice())?)),
            _ => Err(Stop::Fault(Refusal::Malformed)),
        }
    }

    // The same, noted with the line.
    pub fn perform(&mut self, line: u64, command: Command) -> Result<(), Stop>
        ensures { OnOk result (Performed line command self.old self.new) }
    {
        if let Some(deed) = self.deed(command)? {
            self.events.push(Event { line, deed })?;
        }
        Ok(())
    }
}
