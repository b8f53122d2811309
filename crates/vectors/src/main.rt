// Runs published vectors of SHA-256 and HMAC-SHA-256, and compares each result with the published one.
// The arguments are a file of digests and a file of HMACs.
#![tactic(auto)]

mod fault;
mod hex;
mod vector;

use anyhow::anyhow;
use fault::Fault;
use std::alloc::Global;
use std::{env, fmt, fs};
use vector::{Outcome, judge_digest, judge_hmac, passed_over};

// How many lines held a vector, how many of these differ, and how many lines were passed over.
#[derive(Clone, Copy, Default, Drop)]
struct Count {
    vectors: u64,
    differ: u64,
    passed: u64,
}

impl Count {
    fn pass_over(&mut self) {
        self.passed = self.passed.saturating_add(1);
    }

    fn add(&mut self, outcome: Outcome) {
        self.vectors = self.vectors.saturating_add(1);
        self.differ = self.differ.saturating_add(u64::from(!outcome.agrees));
    }
}

impl fmt::Display for Count {
    fn fmt<W: fmt::Write>(&self, f: &mut fmt::Formatter<W>) -> fmt::Result {
        write!(
            f,
            "{} vectors, {} differ; {} lines passed over",
            self.vectors, self.differ, self.passed
        )
    }
}

// A line's vector, run and compared.
fn judge<F: Fn(Global, &[&str]) -> Result<Outcome, Fault>>(
    heap: Global,
    line: &str,
    by: &F,
) -> Result<Outcome, Fault>
    requires { F.IsAlwaysCallable by.now }
{
    let words: Vec<&str> = line.split(' ').collect(heap)?;
    by(heap, &words)
}

// Runs the vectors of a file, and prints a line for each: file, name, length of the text, and `ok` or `DIFFERS`.
fn run_file<F: Fn(Global, &[&str]) -> Result<Outcome, Fault>>(
    rt: &HostRuntime,
    file: &str,
    by: F,
    count: &mut Count,
) -> anyhow::Result<()>
    requires { F.IsAlwaysCallable by }
{
    let text = fs::read_to_string(rt, file)?;
    for (number, line) in (1u64..).zip(text.lines()) {
        if passed_over(line) {
            count.pass_over();
            continue;
        }
        let outcome = judge(rt.alloc(), line, &by).map_err(|fault| anyhow!(
            "\"{file}, line {number}: {fault}\""
        ))?;
        let name = line.split(' ').next().unwrap_or("");
        println!(rt; "{file} {name} {outcome}")?;
        count.add(outcome);
    }
    Ok(())
}

fn run(rt: &HostRuntime) -> anyhow::Result<()> {
    let mut args = env::args(rt)?.skip(1);
    let digests = args
        .next()
        .ok_or_else(|| anyhow!("\"no file of digests\""))?;
    let hmacs = args.next().ok_or_else(|| anyhow!("\"no file of HMACs\""))?;
    let mut count = Count::default();
    run_file(rt, digests.as_str(), judge_digest, &mut count)?;
    run_file(rt, hmacs.as_str(), judge_hmac, &mut count)?;
    println!(rt; "{count}")?;
    if count.differ != 0 {
        return Err(anyhow!("\"a result is not the published one\""));
    }
    Ok(())
}

fn main(rt: HostRuntime) -> anyhow::Result<()> {
    run(&rt)
}
