// Plays scripts: messages by time alone at receivers' clocks, or a sender and receivers by their calls.
#![tactic(auto)]

mod report;
mod show;

use anyhow::ensure;
use report::{Faulty, Report};
use show::{Heard, show};
use simulation::mode::is_play;
use std::io::Read;
use std::{env, fs, io};
use timing::refusal::Refusal;

// A script of either mode; whether it was played.
fn show_either(rt: &HostRuntime, name: &str, script: &[u8]) -> io::Result<bool> {
    if is_play(script) {
        let played = simulation::play::play(rt.alloc(), script);
        show::<Report, Faulty>(rt, name, played.map(Report))
    } else {
        let played = scenario::play::play(rt.alloc(), script);
        show::<Heard, Refusal>(rt, name, played.map(Heard))
    }
}

// Whether a named script was played.
fn play_file(rt: &HostRuntime, name: &str) -> io::Result<bool> {
    match fs::read(rt, name) {
        Ok(script) => show_either(rt, name, script.as_slice()),
        Err(e) => {
            println!(rt; "{name}: not read: {e}")?;
            Ok(false)
        }
    }
}

// Whether the script on standard input was played.
fn play_input(rt: &HostRuntime) -> io::Result<bool> {
    let mut script = Vec::new(rt.alloc());
    let _ = rt.stdin().read_to_end(&mut script)?;
    show_either(rt, "standard input", script.as_slice())
}

// Stops at the first script that is not played, unless it is to keep going.
fn run(rt: &HostRuntime) -> anyhow::Result<()> {
    let mut names = env::args(rt)?.skip(1).peekable();
    let keep_going = names
        .next_if(|word| word.as_str() == "--keep-going")
        .is_some();
    if names.peek().is_none() {
        ensure!(play_input(rt)? || keep_going, "\"a script was not played\"");
    }
    for name in names {
        ensure!(
            play_file(rt, name.as_str())? || keep_going,
            "\"a script was not played\""
        );
    }
    Ok(())
}

fn main(rt: HostRuntime) -> anyhow::Result<()> {
    run(&rt)
}
