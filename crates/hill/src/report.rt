// What is printed of a play.
use crate::show::Rows;
use hearings::event::{Deed, Delivery, Event, Hearing, Sent};
use receiver::outcome::Outcome;
use simulation::counts::Counts;
use std::{fmt, io};
use timing::refusal::{Refusal, number_of};

// A text with every byte that is not printed as \xHH.
#[derive(Drop)]
struct Text<'a>(&'a [u8]);

impl fmt::Display for Text<'_> {
    fn fmt<W: fmt::Write>(&self, f: &mut fmt::Formatter<W>) -> fmt::Result {
        for b in self.0 {
            if (b' '..=b'~').contains(b) && *b != b'\\' {
                f.write_char(char::from(*b))?;
            } else {
                write!(f, "\\x{b:02x}")?;
            }
        }
        Ok(())
    }
}

// Why a receiver or the sender refuses.
#[derive(Drop)]
struct Refused(Refusal);

impl fmt::Display for Refused {
    fn fmt<W: fmt::Write>(&self, f: &mut fmt::Formatter<W>) -> fmt::Result {
        match &self.0 {
            Refusal::Malformed => f.write_str("unknown kind or bad length"),
            Refusal::OutOfRange => f.write_str("interval or index out of range"),
            other => write!(f, "{other}"),
        }
    }
}

// Why a line of a play is at fault.
#[derive(Drop)]
pub struct Faulty(pub Refusal);

impl From<Refusal> for Faulty {
    fn from(refusal: Refusal) -> Faulty {
        Faulty(refusal)
    }
}

impl fmt::Display for Faulty {
    fn fmt<W: fmt::Write>(&self, f: &mut fmt::Formatter<W>) -> fmt::Result {
        match &self.0 {
            Refusal::OutOfRange => f.write_str("a record, a receiver or a count out of range"),
            Refusal::ClockBack => f.write_str("time or a clock that goes back"),
            other => write!(f, "{other}"),
        }
    }
}

// What bytes come to at a receiver.
#[derive(Drop)]
struct ComesTo(Outcome);

impl fmt::Display for ComesTo {
    fn fmt<W: fmt::Write>(&self, f: &mut fmt::Formatter<W>) -> fmt::Result {
        match self.0 {
            Ok(accepted) => write!(f, "{accepted}"),
            Err(e) => {
                let e = Refused(e);
                write!(f, "{e}")
            }
        }
    }
}

fn print_sent(rt: &HostRuntime, line: u64, number: u64, sent: &Sent) -> io::Result<()> {
    match sent {
        Sent::Message { saying, disclosed } => {
            let interval = saying.interval;
            let index = saying.index;
            let text = Text(saying.text.as_slice());
            if *disclosed == 0 {
                return println!(rt;
                    "{line:>6} {number:>7}         -  message {interval}.{index}, no key: {text}"
                );
            }
            println!(rt;
                "{line:>6} {number:>7}         -  message {interval}.{index}, key {disclosed}: {text}"
            )
        }
        Sent::Key { interval } => {
            println!(rt; "{line:>6} {number:>7}         -  key {interval}")
        }
    }
}

fn print_delivery(rt: &HostRuntime, delivery: &Delivery) -> io::Result<()> {
    let (said, saying) = match delivery {
        Delivery::Said(saying) => ("said", saying),
        Delivery::NotSaid(saying) => ("NOT SAID", saying),
    };
    let interval = saying.interval;
    let index = saying.index;
    let text = Text(saying.text.as_slice());
    println!(rt; "                            delivered {interval}.{index}, {said}: {text}")
}

fn print_hearing(
    rt: &HostRuntime,
    line: u64,
    record: Option<u64>,
    hearing: &Hearing,
) -> io::Result<()> {
    let receiver = hearing.receiver;
    let number = number_of(&hearing.outcome);
    let what = ComesTo(hearing.outcome);
    match record {
        Some(record) => println!(rt; "{line:>6} {record:>7} {receiver:>9}  {number} {what}")?,
        None => println!(rt; "{line:>6}       - {receiver:>9}  {number} {what}")?,
    }
    for delivery in hearing.deliveries.iter() {
        print_delivery(rt, delivery)?;
    }
    Ok(())
}

fn print_event(rt: &HostRuntime, event: &Event) -> io::Result<()> {
    let line = event.line;
    match &event.deed {
        Deed::Sent { number, sent } => print_sent(rt, line, *number, sent),
        Deed::NotSaid(refusal) => {
            let number = u8::from(*refusal);
            let why = Refused(*refusal);
            println!(rt; "{line:>6}       -         -  {number} not said: {why}")
        }
        Deed::Brought { record, hearings } => {
            for hearing in hearings.iter() {
                print_hearing(rt, line, *record, hearing)?;
            }
            Ok(())
        }
    }
}

// What happens in a play, event by event, and how much.
#[derive(Drop)]
pub struct Report(pub Vec<Event>);

impl Rows for Report {
    fn print(&self, rt: &HostRuntime) -> io::Result<()> {
        println!(rt; "  line  record  receiver  comes to")?;
        for event in self.0.iter() {
            print_event(rt, event)?;
        }
        let Counts {
            sent,
            not_said,
            brought,
            refused,
            delivered,
            said,
        } = Counts::of(self.0.as_slice());
        println!(rt;
            "  {sent} sent ({not_said} not said), {brought} brought ({refused} refused), {delivered} delivered ({said} said)"
        )
    }
}
