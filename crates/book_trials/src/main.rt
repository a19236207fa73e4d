//! Solves drawn books of equations by an analysis and by the reference solver, and compares the values.
//! The counts of values that it prints are those of the reference.
#![tactic(auto)]

mod book;
mod generator;
mod keys;
mod makers;
mod tally;
mod trial;

use anyhow::anyhow;
use kinds::{Bound, Grade};
use makers::Drawn;
use tally::try_books;

// Tries the books of a kind, and prints what came of them.
fn try_kind<K: Drawn>(rt: &HostRuntime) -> anyhow::Result<()> {
    let tally = try_books::<K>(rt.alloc())?;
    println!(rt; "{}: {tally}", K::NAMES.kind)?;
    match tally.first_wrong {
        None => Ok(()),
        Some(seed) => Err(anyhow!("the solvers differ, first at seed {seed}")),
    }
}

fn main(rt: HostRuntime) -> anyhow::Result<()> {
    try_kind::<Bound>(&rt)?;
    try_kind::<Grade>(&rt)
}
