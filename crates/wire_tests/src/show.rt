// The values of the formats, a line or two each.
use std::{fmt, io};
use wire::air::Air;
use wire::key::DisclosedKey;
use wire::message::Message;
use wire::said::Said;
use wire::settings::Settings;

// Bytes to base 16, a space before each.
#[derive(Clone, Copy, Drop)]
struct Hex<'a>(&'a [u8]);

impl fmt::Display for Hex<'_> {
    fn fmt<W: fmt::Write>(&self, f: &mut fmt::Formatter<W>) -> fmt::Result {
        for b in self.0 {
            write!(f, " {b:02x}")?;
        }
        Ok(())
    }
}

pub fn show_air(rt: &impl Print, heard: Air<'_>) -> io::Result<()> {
    match heard {
        Air::Message(m) => {
            let Message {
                said,
                under_tag,
                tag,
                disclosed,
            } = m;
            show_said(rt, said)?;
            println!(rt; "  under the tag {} bytes", under_tag.len())?;
            println!(rt; "  tag{}", Hex(tag))?;
            show_key(rt, disclosed)
        }
        Air::Key(k) => show_key(rt, k),
    }
}

pub fn show_said(rt: &impl Print, said: Said<'_>) -> io::Result<()> {
    let Said {
        interval,
        index,
        text,
    } = said;
    println!(rt; "  interval {interval}, index {index}")?;
    println!(rt; "  text{}", Hex(text))
}

fn show_key(rt: &impl Print, k: DisclosedKey<'_>) -> io::Result<()> {
    let DisclosedKey { interval, key } = k;
    println!(rt; "  disclosed: interval {interval}")?;
    println!(rt; "  key{}", Hex(key))
}

pub fn show_settings(rt: &impl Print, s: Settings) -> io::Result<()> {
    let start = s.start;
    let p = s.parameters;
    println!(rt;
        "  start {start}, ticks {}, delay {}, error {}, last {}",
        p.ticks, p.delay, p.error, p.last
    )?;
    println!(rt; "  commitment{}", Hex(&s.commitment))
}
