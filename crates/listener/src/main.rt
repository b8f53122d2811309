// Reads settings and then frames, each from the receiver's own clock or from the air, and writes what the receiver delivers.
#![tactic(auto)]

ghost use Rattle.std.specs.Prelude.{◌≤◌, length, IfOk};

use anyhow::anyhow;
use buffer::room::Buffer;
use frames::head;
use frames::head::{Head, Source};
use receiver::calls::{hear_air, hear_clock};
use receiver::outcome::Outcome;
use receiver::state::Receiver;
use std::io;
use std::io::{Read, Write};
use wire::{delivery, settings};

// Reads until the memory is full or the input ends: how many bytes came. A cursor, since `read_exact` doesn't tell how many.
fn fill(rt: &HostRuntime, b: &mut [u8]) -> io::Result<usize>
    ensures { IfOk result (λ n. n ≤ length b.old) }
{
    let mut at = 0;
    while at < b.len() {
        let count = rt.stdin().read(&mut b[at..])?;
        if count == 0 {
            break;
        }
        at += count;
    }
    Ok(at)
}

// The deliveries as records, at once.
fn hand_out(rt: &HostRuntime, out: &Buffer) -> io::Result<()> {
    let mut record = [0u8; 256];
    for m in out.messages() {
        if let Ok(count) = delivery::write(m.said(), &mut record)
            && let Some(bytes) = record.get(..count)
        {
            rt.stdout().write_all(bytes)?;
        }
    }
    rt.stdout().flush()
}

// What the bytes of a frame come to; a tick is taken from a frame of the clock alone.
fn hear(r: &mut Receiver, source: Source, bytes: &[u8], out: &mut Buffer) -> Outcome {
    match source {
        Source::Clock => {
            out.clear();
            hear_clock(r, bytes)
        }
        Source::Air => hear_air(r, bytes, out).outcome,
    }
}

// A frame at fault ends the input; all before it stands.
fn fault<T>(rt: &HostRuntime, n: u64, why: &str) -> anyhow::Result<T> {
    eprintln!(rt; "frame {n}: refused 1: {why}")?;
    Err(anyhow!("\"the input was not read to its end\""))
}

// The head of the next frame; none at the end of the input.
fn next_head(rt: &HostRuntime, n: u64) -> anyhow::Result<Option<Head>> {
    let mut b = [0u8; 3];
    match fill(rt, &mut b)? {
        0 => Ok(None),
        3 => match head::read(b) {
            Ok(h) => Ok(Some(h)),
            Err(_) => fault(rt, n, "an unknown source"),
        },
        _ => fault(rt, n, "a frame that is cut"),
    }
}

// One frame, behind its head.
fn take_frame(
    rt: &HostRuntime,
    n: u64,
    source: Source,
    r: &mut Receiver,
    bytes: &mut [u8],
    out: &mut Buffer,
) -> anyhow::Result<()> {
    if fill(rt, bytes)? < bytes.len() {
        return fault(rt, n, "a frame that is cut");
    }
    if let Err(e) = hear(r, source, bytes, out) {
        let number = u8::from(e);
        eprintln!(rt; "frame {n}: refused {number}")?;
    }
    hand_out(rt, out)?;
    Ok(())
}

fn run(rt: &HostRuntime) -> anyhow::Result<()> {
    let mut b = [0u8; 47];
    let count = fill(rt, &mut b)?;
    let s = match settings::read(&b[0..count]) {
        Ok(s) => s,
        Err(e) => {
            let number = u8::from(e);
            eprintln!(rt; "settings: refused {number}")?;
            return Err(anyhow!("\"no settings\""));
        }
    };
    let mut r = Receiver::new(s);
    let mut out = Buffer::new();
    let mut bytes = [0u8; 65535];
    for n in 1..u64::MAX {
        let Some(h) = next_head(rt, n)? else {
            break;
        };
        let frame = &mut bytes[..usize::from(h.len)];
        take_frame(rt, n, h.source, &mut r, frame, &mut out)?;
    }
    Ok(())
}

fn main(rt: HostRuntime) -> anyhow::Result<()> {
    run(&rt)
}
