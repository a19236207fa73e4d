//! What solving and asking cost: `bench SHAPE UNKNOWNS` solves a book of a family and a size, and `bench ask TIMES` asks both books of the script
//! on standard input for all alternatives, so many times. Without arguments it solves a few small books; `bench both` asks once besides.
#![tactic(auto)]

mod asking;
mod shaped;
mod solving;

use anyhow::anyhow;
use asking::ask_all;
use books::Book;
use kinds::{Bound, Grade, Kind};
use script_books::{BoundBook, GradeBook};
use script_graph::read;
use shaped::Shape;
use solving::{Outcome, solve};
use std::env;
use std::io::Read;

// The family of a name. No `TryFrom` of `Shape`: the names are words of this program.
fn shape_named(name: &str) -> anyhow::Result<Shape> {
    match name {
        "chain" => Ok(Shape::Chain),
        "reverse" => Ok(Shape::Reverse),
        "ring" => Ok(Shape::Ring),
        "grid" => Ok(Shape::Grid),
        _ => Err(anyhow!("the shapes are chain, reverse, ring and grid")),
    }
}

// Solves a book, and prints a line on it.
fn measure(rt: &HostRuntime, name: &str, size: usize) -> anyhow::Result<()> {
    let Outcome {
        unknowns,
        rounds,
        settled,
        largest,
    } = solve(rt.alloc(), shape_named(name)?, size)?;
    let state = if settled { "settled" } else { "not settled" };
    println!(rt; "{name}: {unknowns} unknowns, {rounds} rounds, {state}, largest {largest}")?;
    Ok(())
}

// Asks a book so many times, and prints what it answered the last time.
fn ask_book<K: Kind, B: Book<K>>(
    rt: &HostRuntime,
    name: &str,
    book: &B,
    times: usize,
) -> anyhow::Result<()> {
    for _ in 1..times {
        ask_all(book);
    }
    let asked = ask_all(book);
    println!(rt;
        "{name}: {} unknowns, {} alternatives, {} terms",
        book.count(),
        asked.alternatives,
        asked.terms
    )?;
    Ok(())
}

// Asks the books of the script on standard input.
fn ask(rt: &HostRuntime, times: usize) -> anyhow::Result<()> {
    let mut script = Vec::new(rt.alloc());
    rt.stdin().read_to_end(&mut script)?;
    let graph = read(rt.alloc(), &script)?;
    ask_book::<Bound, BoundBook<'_>>(rt, "bounds", &BoundBook::new(&graph), times)?;
    ask_book::<Grade, GradeBook<'_>>(rt, "grades", &GradeBook::new(&graph), times)
}

// Solves a few small books.
fn measure_some(rt: &HostRuntime) -> anyhow::Result<()> {
    measure(rt, "chain", 1)?;
    for name in ["chain", "reverse", "ring", "grid"] {
        measure(rt, name, 64)?;
    }
    Ok(())
}

// Solves a few small books, and asks once.
fn measure_both(rt: &HostRuntime) -> anyhow::Result<()> {
    measure_some(rt)?;
    ask(rt, 1)
}

fn main(rt: HostRuntime) -> anyhow::Result<()> {
    let mut words = env::args(&rt)?.skip(1);
    let Some(name) = words.next() else {
        return measure_some(&rt);
    };
    let Some(number) = words.next() else {
        return match name.as_str() {
            "both" => measure_both(&rt),
            _ => Err(anyhow!("bench SHAPE UNKNOWNS, or bench ask TIMES < SCRIPT")),
        };
    };
    let number = number.as_str().parse::<usize>()?;
    match name.as_str() {
        "ask" => ask(&rt, number),
        shape => measure(&rt, shape, number),
    }
}
