// What is printed of a script that goes by time alone, and of what a script of either mode comes to.
use scenario::arrival::Arrival;
use script::error::{Error, Fault};
use std::{fmt, io};
use timing::refusal::{Refusal, number_of};

// What a message comes to by time alone.
#[derive(Drop)]
struct Judged(Result<(), Refusal>);

impl fmt::Display for Judged {
    fn fmt<W: fmt::Write>(&self, f: &mut fmt::Formatter<W>) -> fmt::Result {
        match &self.0 {
            Ok(()) => f.write_str("kept"),
            Err(e) => write!(f, "{e}"),
        }
    }
}

// What a script was played into, in rows. Each is printed by a call of its own, so that it is one write,
// and stays whole where programs share an output.
pub trait Rows {
    fn print(&self, rt: &HostRuntime) -> io::Result<()>;
}

// What messages come to at receivers.
#[derive(Drop)]
pub struct Heard(pub Vec<Arrival>);

impl Rows for Heard {
    fn print(&self, rt: &HostRuntime) -> io::Result<()> {
        println!(rt; "  line  interval  receiver                 clock  comes to")?;
        for arrival in self.0.iter() {
            let Arrival {
                line,
                interval,
                receiver,
                clock,
                judgement,
            } = *arrival;
            let number = number_of(&judgement);
            let comes_to = Judged(judgement);
            println!(rt; "{line:>6} {interval:>9} {receiver:>9} {clock:>21}  {number} {comes_to}")?;
        }
        Ok(())
    }
}

// Prints what a script was played into, or its fault with why it is one; whether it was played.
pub fn show<P: Rows + Drop, W: From<Refusal> + fmt::Display + Drop>(
    rt: &HostRuntime,
    name: &str,
    played: Result<P, Error>,
) -> io::Result<bool> {
    match played {
        Ok(played) => {
            println!(rt; "{name}")?;
            played.print(rt)?;
            Ok(true)
        }
        Err(Error::Faulty(Fault { line, refusal })) => {
            let number = u8::from(refusal);
            let why = W::from(refusal);
            println!(rt; "{name}: line {line}: refused {number}: {why}")?;
            Ok(false)
        }
        Err(Error::NoMemory) => {
            println!(rt; "{name}: no memory")?;
            Ok(false)
        }
    }
}
