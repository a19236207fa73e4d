//! Tries what is said of scripts: of files by their names, which are the arguments, and of random ones.
//! Intervals, grades, findings and reports are held against a second solver, which iterates from below, and random runs against the intervals and findings.
#![tactic(auto)]

mod calls;
mod comparison;
mod generator;
mod random;
mod report_lines;
mod session_results;
mod simulation;
mod statistics;
mod trial;

use anyhow::Result;
use generator::random_script;
use simulation::RunLimits;
use statistics::Statistics;
use std::{env, fs};
use trial::Trial;

const RANDOM_SCRIPTS: u32 = 2000;

const EXAMPLE_RUNS: RunLimits = RunLimits {
    runs: 200,
    steps: 500,
};

const RANDOM_RUNS: RunLimits = RunLimits {
    runs: 48,
    steps: 300,
};

/// Tries the script of a file, and prints what comes of it.
fn try_file(rt: &HostRuntime, name: &str, number: u32, statistics: &mut Statistics) -> Result<()> {
    let script = fs::read(rt, name)?;
    match Trial::new(rt.alloc(), &script, number, EXAMPLE_RUNS) {
        Ok(trial) => {
            println!(rt; "{name}: {trial}")?;
            statistics.add(&trial, number);
        }
        Err(refusal) => println!(rt; "{name}: {refusal}")?,
    }
    Ok(())
}

fn try_files(rt: &HostRuntime) -> Result<Statistics> {
    let mut statistics = Statistics::default();
    for (number, name) in (0u32..).zip(env::args(rt)?.skip(1)) {
        try_file(rt, name.as_str(), number, &mut statistics)?;
    }
    println!(rt; "examples: {statistics}")?;
    Ok(statistics)
}

fn try_random(rt: &HostRuntime) -> Result<Statistics> {
    let mut statistics = Statistics::default();
    for seed in 0..RANDOM_SCRIPTS {
        let script = random_script(rt.alloc(), seed)?;
        let trial = Trial::new(rt.alloc(), script.as_bytes(), seed, RANDOM_RUNS)?;
        statistics.add(&trial, seed);
    }
    println!(rt; "random scripts: {statistics}")?;
    Ok(statistics)
}

fn main(rt: HostRuntime) -> Result<()> {
    let examples = try_files(&rt)?;
    let random = try_random(&rt)?;
    calls::try_all(&rt)?;
    match examples.agree() && random.agree() {
        true => println!(rt; "all agree")?,
        false => println!(rt; "WRONG: not all agree")?,
    }
    Ok(())
}
