// One book of a family, solved.
ghost use Rattle.std.specs.Prelude.{◌≡◌, min, MatchResult};
ghost use Rattle.base.specs.Reasons.{no_memory};
ghost use Rattle.kinds.specs.Limits.{most_unknowns};
ghost use Rattle.bench.specs.Largest.{shown_at, Tops};

use crate::shaped::{Shape, Shaped};
use base::Refusal;
use books::{Book, Entry};
use kinds::Bound;
use solver::{Analysis, MOST_ROUNDS, Progress};
use std::alloc::Global;

/// What a run came to. A flag beside the others, not an `Option`: they are told in both cases.
#[derive(Clone, Copy)]
pub struct Outcome {
    pub unknowns: usize,
    pub rounds: u16,
    pub settled: bool,
    pub largest: i64,
}

// The whole number that an unknown shows, 0 if it shows none.
fn whole_at(analysis: &Analysis<Bound>, unknown: usize) -> i64
    ensures { result ≡ shown_at analysis.now.list.now unknown }
{
    let value = analysis.value(unknown).unwrap_or(Bound::Least);
    value.whole().unwrap_or(0)
}

// The largest whole number among the first values, 0 if none is greater.
fn largest(analysis: &Analysis<Bound>, count: usize) -> i64
    ensures { Tops analysis.now.list.now count result }
{
    let mut largest = 0;
    // By number: an analysis shows one unknown at a time.
    for unknown in 0..count {
        largest = largest.max(whole_at(analysis, unknown));
    }
    largest
}

/// Solves the book of a family that has so many unknowns.
#[tactic(auto, using(books::proofs::Rows::rows_long))]
pub fn solve(alloc: Global, shape: Shape, size: usize) -> Result<Outcome, Refusal>
    ensures { MatchResult result (λ o. o.unknowns ≡ min size most_unknowns) (λ e. e ≡ no_memory) }
{
    let book = Shaped::new(shape, size);
    let unknowns = book.count();
    let entry = Entry {
        value: Bound::Least,
        choice: None,
    };
    let mut list = vec![in alloc; entry; unknowns]?;
    let mut analysis = Analysis::set_up(&book, list.as_mut_slice())?;
    let Progress { rounds, settled } = analysis.run(&book, MOST_ROUNDS)?;
    Ok(Outcome {
        unknowns,
        rounds,
        settled,
        largest: largest(&analysis, unknowns),
    })
}
