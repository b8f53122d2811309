// Every format whole, cut at every byte, one byte too long, and with each byte changed to each other value.
// What is read is written again, and must give the bytes that it was read from.
#![tactic(auto)]

mod formats;
mod records;
mod show;
mod tally;

use formats::{Delivery, Format, FromAir, Setup, Tick};
use records::Case;
use std::io;
use tally::Tally;
use timing::parameters::Parameters;
use timing::refusal::number_of;
use wire::air::Air;
use wire::key::DisclosedKey;
use wire::said::Said;
use wire::{air, delivery, message};

fn whole<F: Format>(bytes: &[u8]) -> Tally {
    let mut tally = Tally::default();
    tally.add(F::again(bytes));
    tally
}

fn cut<F: Format>(bytes: &[u8]) -> Tally {
    let mut tally = Tally::default();
    // a chain over the lengths is no plainer: each length is one input
    for len in 0..bytes.len() {
        tally.add(F::again(&bytes[..len]));
    }
    tally
}

// In fixed memory, as `changed`: what is tried can't run out of any.
fn longer<F: Format>(bytes: &[u8]) -> Tally {
    let mut tally = Tally::default();
    let mut memory = [0; 256];
    if bytes.len() < memory.len() {
        memory[..bytes.len()].copy_from_slice(bytes);
        tally.add(F::again(&memory[..bytes.len() + 1]));
    }
    tally
}

fn changed<F: Format>(bytes: &[u8]) -> Tally {
    let mut tally = Tally::default();
    let mut memory = [0; 256];
    let Some(record) = memory.get_mut(..bytes.len()) else {
        return tally;
    };
    record.copy_from_slice(bytes);
    for (i, byte) in bytes.iter().enumerate() {
        for other in 0..=255u8 {
            if other != *byte {
                record[i] = other;
                tally.add(F::again(record));
            }
        }
        record[i] = *byte;
    }
    tally
}

fn try_case<F: Format>(rt: &impl Print, case: Case<'_>) -> io::Result<()> {
    let Case { name, bytes } = case;
    println!(rt; "{name}, whole: {}", whole::<F>(bytes))?;
    F::show(rt, bytes)?;
    println!(rt; "{name}, cut: {}", cut::<F>(bytes))?;
    println!(rt; "{name}, longer: {}", longer::<F>(bytes))?;
    println!(rt; "{name}, changed: {}", changed::<F>(bytes))
}

// Intervals and indices at their limits: the number of the refusal, or 0, and the interval of the key that is still handed on.
fn show_ranges(rt: &impl Print, p: Parameters) -> io::Result<()> {
    for (interval, index) in [
        (0u16, 0u8),
        (1, 63),
        (1, 64),
        (1000, 63),
        (1001, 63),
        (65535, 255),
    ] {
        let bytes = records::message(interval, index);
        match air::read(&bytes) {
            Ok(Air::Message(m)) => {
                let message = number_of(&m.in_range(p));
                let disclosed = m.disclosed.interval;
                let key = number_of(&m.disclosed.in_range(p));
                println!(rt;
                    "interval {interval}, index {index}: {message}; key of interval {disclosed}: {key}"
                )?;
            }
            _ => println!(rt; "interval {interval}, index {index}: not read")?,
        }
    }
    Ok(())
}

// Texts at the limit: the length that is written, or 0, and the number that reading such a message answers.
fn show_texts(rt: &impl Print) -> io::Result<()> {
    let letters = [b'a'; 255];
    for count in [0u8, 1, 199, 200, 201, 255] {
        let said = Said {
            interval: 1,
            index: 0,
            text: &letters[..usize::from(count)],
        };
        let mut out = [0; 256];
        let message = message::write(said, &[0; 16], DisclosedKey::none(), &mut out).unwrap_or(0);
        let delivery = delivery::write(said, &mut out).unwrap_or(0);
        let read = read_text(count);
        println!(rt; "text of {count}: message {message}, delivery {delivery}; read: {read}")?;
    }
    Ok(())
}

// The number that reading a message of interval 1 with so long a text of zeros answers.
fn read_text(count: u8) -> u8 {
    let mut raw = [0; 310];
    raw[0] = 1;
    raw[2] = 1;
    raw[4] = count;
    number_of(&air::read(&raw[..55 + usize::from(count)]))
}

fn main(rt: HostRuntime) -> io::Result<()> {
    for case in records::from_air() {
        try_case::<FromAir>(&rt, case)?;
    }
    try_case::<Tick>(&rt, records::tick())?;
    try_case::<Delivery>(&rt, records::delivery())?;
    for case in records::settings() {
        try_case::<Setup>(&rt, case)?;
    }
    show_texts(&rt)?;
    match Parameters::new(60, 2, 5, 1000) {
        Ok(p) => show_ranges(&rt, p),
        Err(_) => Ok(()),
    }
}
