// Places of what is counted from 1.
ghost use Rattle.std.specs.Prelude.{◌≡◌, ◌+◌, ◌<◌, ◌≤◌, MatchResult};
ghost use Rattle.timing.specs.declared.refusal.Refusal.TheVariants.{OutOfRange};

use timing::refusal::Refusal;

// The place of what has this number, of so many.
pub fn place(number: u64, count: usize) -> Result<usize, Refusal>
    ensures { MatchResult result (λ i. (i < count) × (number ≡ i + 1)) (λ e. (e ≡ OutOfRange) × (1 ≤ number → count < number)) }
{
    if !(1..=count as u64).contains(&number) {
        return Err(Refusal::OutOfRange);
    }
    Ok((number - 1) as usize)
}
