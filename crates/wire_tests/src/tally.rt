// What became of some inputs.
use std::fmt;
use timing::refusal::Refusal;

#[derive(Clone, Copy, Default, Drop)]
pub struct Tally {
    same: u32,
    malformed: u32,
    bad_settings: u32,
    others: u32,
}

impl Tally {
    // One more input: whether the bytes that were written again are those that were read, or why none were read.
    pub fn add(&mut self, outcome: Result<bool, Refusal>) {
        let count = match outcome {
            Ok(true) => &mut self.same,
            Err(Refusal::Malformed) => &mut self.malformed,
            Err(Refusal::BadSettings) => &mut self.bad_settings,
            Ok(false) | Err(_) => &mut self.others,
        };
        *count = count.saturating_add(1);
    }
}

impl fmt::Display for Tally {
    fn fmt<W: fmt::Write>(&self, f: &mut fmt::Formatter<W>) -> fmt::Result {
        let Tally {
            same,
            malformed,
            bad_settings,
            others,
        } = self;
        write!(
            f,
            "{same} read and written again, {malformed} refused with 1, {bad_settings} with 11, {others} otherwise"
        )
    }
}
