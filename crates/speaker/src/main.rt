// Plays a sender by a script, and writes its settings and what goes on the air.
#![tactic(auto)]

mod deeds;

use anyhow::anyhow;
use deeds::{Deed, Script};
use frames::head;
use frames::head::{Head, Source};
use script::error::{Error, Fault};
use sender::state::Sender;
use sender_laws::calls;
use std::io::{Read, Write};
use std::{env, io};
use timing::refusal::Refusal;

// Bytes on the air, as a frame.
fn put_on_air(rt: &HostRuntime, bytes: &[u8]) -> io::Result<()> {
    let Ok(len) = u16::try_from(bytes.len()) else {
        return Ok(());
    };
    rt.stdout().write_all(&head::write(Head {
        source: Source::Air,
        len,
    }))?;
    rt.stdout().write_all(bytes)?;
    rt.stdout().flush()
}

fn refused(rt: &HostRuntime, n: u64, e: Refusal) -> io::Result<()> {
    let number = u8::from(e);
    eprintln!(rt; "deed {n}: refused {number}")
}

fn pass(rt: &HostRuntime, sender: &mut Sender, n: u64, time: u64) -> io::Result<()> {
    match calls::tick(sender, time) {
        Ok(Some(key)) => put_on_air(rt, &key),
        Ok(None) => Ok(()),
        Err(e) => refused(rt, n, e),
    }
}

fn say(rt: &HostRuntime, sender: &mut Sender, n: u64, text: &[u8]) -> io::Result<()> {
    let mut message = [0u8; 256];
    match calls::say(sender, text, &mut message) {
        Ok(count) => match message.get(..count) {
            Some(bytes) => put_on_air(rt, bytes),
            None => Ok(()),
        },
        Err(e) => refused(rt, n, e),
    }
}

fn play(rt: &HostRuntime, script: Script, date: u64) -> anyhow::Result<()> {
    let (mut sender, settings) = calls::begin(script.parameters, date, script.drawn);
    rt.stdout().write_all(&settings)?;
    for (deed, n) in script.deeds.iter().zip(1u64..) {
        match deed {
            Deed::Time(t) => pass(rt, &mut sender, n, *t)?,
            Deed::Say(text) => say(rt, &mut sender, n, text.as_slice())?,
        }
    }
    Ok(())
}

// The date of the first tick, if it is given.
fn date_of(rt: &HostRuntime) -> anyhow::Result<u64> {
    match env::args(rt)?.nth(1) {
        Some(word) => Ok(word.as_str().parse::<u64>()?),
        None => Ok(0),
    }
}

fn run(rt: &HostRuntime) -> anyhow::Result<()> {
    let date = date_of(rt)?;
    let mut bytes = Vec::new(rt.alloc());
    let _ = rt.stdin().read_to_end(&mut bytes)?;
    match deeds::read(rt.alloc(), bytes.as_slice()) {
        Ok(script) => play(rt, script, date),
        Err(Error::Faulty(Fault { line, refusal })) => {
            let number = u8::from(refusal);
            eprintln!(rt; "line {line}: refused {number}")?;
            Err(anyhow!("\"the script was not played\""))
        }
        Err(Error::NoMemory) => Err(anyhow!("\"no memory\"")),
    }
}

fn main(rt: HostRuntime) -> anyhow::Result<()> {
    run(&rt)
}
