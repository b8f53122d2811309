// The numbers of the settings, within their limits.
ghost use Rattle.std.specs.Prelude.{◌*◌, ◌<◌, ◌≤◌};

// An interval has `ticks` seconds; the key of interval i is disclosed in interval i + delay + 1 at the earliest;
// a receiver's clock is wrong by at most `error` ticks; `last` is the chain's last interval.
#[derive(Clone, Copy, Drop)]
#[repr(C)]
pub struct Parameters {
    pub ticks: u16,
    pub delay: u8,
    pub error: u16,
    pub last: u16,
    ghost some_ticks: { 1 ≤ ticks },
    ghost few_ticks: { ticks ≤ 3600 },
    ghost some_delay: { 1 ≤ delay },
    ghost small_delay: { delay ≤ 8 },
    ghost some_intervals: { 1 ≤ last },
    ghost few_intervals: { last ≤ 16384 },
    ghost small_error: { 2 * error < ticks * delay },
}

// The same numbers before they are looked at.
#[derive(Clone, Copy, PartialEq, Eq, Debug, Drop)]
pub struct Numbers {
    pub ticks: u64,
    pub delay: u64,
    pub error: u64,
    pub last: u64,
}
