// The formats: how a record is read and written again, and what is shown of it.
use crate::show::{show_air, show_said, show_settings};
use std::io;
use timing::refusal::Refusal;
use wire::air::Air;
use wire::{air, clock, delivery, key, message, settings};

pub trait Format {
    // Whether what is read, written again, gives the bytes that it was read from.
    fn again(b: &[u8]) -> Result<bool, Refusal>;

    // The values that are read.
    fn show(rt: &impl Print, b: &[u8]) -> io::Result<()>;
}

pub struct FromAir;

impl Format for FromAir {
    fn again(b: &[u8]) -> Result<bool, Refusal> {
        match air::read(b)? {
            Air::Message(m) => {
                let mut out = [0; 256];
                let count = message::write(m.said, m.tag, m.disclosed, &mut out)?;
                Ok(out.get(..count) == Some(b))
            }
            Air::Key(k) => Ok(key::write(k).as_slice() == b),
        }
    }

    fn show(rt: &impl Print, b: &[u8]) -> io::Result<()> {
        match air::read(b) {
            Ok(heard) => show_air(rt, heard),
            Err(_) => Ok(()),
        }
    }
}

pub struct Tick;

impl Format for Tick {
    fn again(b: &[u8]) -> Result<bool, Refusal> {
        Ok(clock::write(clock::read(b)?).as_slice() == b)
    }

    fn show(rt: &impl Print, b: &[u8]) -> io::Result<()> {
        match clock::read(b) {
            Ok(tick) => println!(rt; "  tick {tick}"),
            Err(_) => Ok(()),
        }
    }
}

pub struct Delivery;

impl Format for Delivery {
    fn again(b: &[u8]) -> Result<bool, Refusal> {
        let mut out = [0; 256];
        let count = delivery::write(delivery::read(b)?, &mut out)?;
        Ok(out.get(..count) == Some(b))
    }

    fn show(rt: &impl Print, b: &[u8]) -> io::Result<()> {
        match delivery::read(b) {
            Ok(said) => show_said(rt, said),
            Err(_) => Ok(()),
        }
    }
}

pub struct Setup;

impl Format for Setup {
    fn again(b: &[u8]) -> Result<bool, Refusal> {
        Ok(settings::write(settings::read(b)?).as_slice() == b)
    }

    fn show(rt: &impl Print, b: &[u8]) -> io::Result<()> {
        match settings::read(b) {
            Ok(s) => show_settings(rt, s),
            Err(_) => Ok(()),
        }
    }
}
