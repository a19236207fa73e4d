// Systems and scripts whose least solutions are known and proved, and the analyses of the systems, call by call: each call with what it answered.
#![tactic(auto)]

mod descending;
mod scripts;
mod systems;

use base::Refusal;
use books::{Book, Entry};
use descending::DescendingBook;
use kinds::Kind;
use solver::{Analysis, Answer, Call, MOST_ROUNDS, Progress, make_calls};
use std::{fmt, io};
use systems::{CopiedGrade, System};

// The calls that every system gets: questions and refused ones before, between and behind the rounds.
const CALLS: [Call; 16] = [
    Call::Value(0),
    Call::Choice(0),
    Call::Round,
    Call::Value(0),
    Call::Choice(0),
    Call::Run(65536),
    Call::Run(0),
    Call::Run(65535),
    Call::Value(0),
    Call::Value(1),
    Call::Value(2),
    Call::Rounds,
    Call::Round,
    Call::Restart,
    Call::Rounds,
    Call::Run(1),
];

// A call, as it is printed.
#[derive(Clone, Copy)]
struct Asked(Call);

impl fmt::Display for Asked {
    fn fmt<W: fmt::Write>(&self, f: &mut fmt::Formatter<W>) -> fmt::Result {
        match self.0 {
            Call::Round => write!(f, "round"),
            Call::Run(budget) => write!(f, "run of {budget}"),
            Call::Restart => write!(f, "restart"),
            Call::Value(unknown) => write!(f, "value of u{unknown}"),
            Call::Choice(unknown) => write!(f, "choice of u{unknown}"),
            Call::Rounds => write!(f, "rounds"),
        }
    }
}

// What a round or a run came to, as it is printed.
#[derive(Clone, Copy)]
struct Reached(Progress);

impl fmt::Display for Reached {
    fn fmt<W: fmt::Write>(&self, f: &mut fmt::Formatter<W>) -> fmt::Result {
        let state = if self.0.settled {
            "settled"
        } else {
            "not settled"
        };
        write!(f, "{} counted, {state}", self.0.rounds)
    }
}

// An answer, as it is printed.
#[derive(Clone, Copy)]
struct Answered<K>(Result<Answer<K>, Refusal>);

impl<K: Kind + fmt::Display> fmt::Display for Answered<K> {
    fn fmt<W: fmt::Write>(&self, f: &mut fmt::Formatter<W>) -> fmt::Result {
        match self.0 {
            Ok(Answer::Made(progress)) => write!(f, "{}", Reached(progress)),
            Ok(Answer::Done) => write!(f, "done"),
            Ok(Answer::Shown(value)) => write!(f, "{value}"),
            Ok(Answer::Chosen(Some(number))) => write!(f, "alternative {number}"),
            Ok(Answer::Chosen(None)) => write!(f, "none"),
            Ok(Answer::Counted(rounds)) => write!(f, "{rounds}"),
            Err(refusal) => write!(f, "{refusal}"),
        }
    }
}

// Whether one run from set-up makes so many rounds and is settled then.
fn settles_after<K: Kind, B: Book<K>>(book: &B, list: &mut [Entry<K>], rounds: u16) -> bool {
    let settled = Progress {
        rounds,
        settled: true,
    };
    match Analysis::set_up(book, list) {
        Ok(mut analysis) => analysis.run(book, MOST_ROUNDS) == Ok(settled),
        Err(_) => false,
    }
}

// Makes all the calls of the list on a book and prints them with their answers. In one run the book is to settle after the rounds that are proved of it.
fn live<K: Kind + fmt::Display, B: Book<K>>(
    rt: &HostRuntime,
    name: &str,
    book: &B,
    rounds: u16,
) -> io::Result<()> {
    println!(rt; "{name}")?;
    let entry = Entry {
        value: K::greatest(),
        choice: None,
    };
    let mut list = vec![in rt.alloc(); entry; 2]?;
    let mut answers = vec![in rt.alloc(); Ok(Answer::Done); CALLS.len()]?;
    if let Err(refusal) = make_calls(book, list.as_mut_slice(), &CALLS, answers.as_mut_slice()) {
        return println!(rt; "{refusal}");
    }
    for (call, answer) in CALLS.iter().zip(&answers) {
        println!(rt; "  {}: {}", Asked(*call), Answered(*answer))?;
    }
    if !settles_after(book, list.as_mut_slice(), rounds) {
        return println!(rt; "  WRONG: not settled after {rounds} rounds");
    }
    Ok(())
}

// A system of bounds.
fn live_system(rt: &HostRuntime, name: &str, system: System) -> io::Result<()> {
    live(rt, name, &system, system.rounds())
}

// The six systems of bounds, the one of grades, and the one of depths.
fn main(rt: HostRuntime) -> io::Result<()> {
    live_system(&rt, "no unknowns", System::Nothing)?;
    live_system(&rt, "u0 = max(0, u1), u1 = u0", System::Copying)?;
    live_system(&rt, "u0 = max(0, min(u0 + 1, 9))", System::Capped)?;
    live_system(&rt, "u0 = max(0, u0 + 1)", System::Growing)?;
    live_system(&rt, "u0 = u0 + 1", System::Groundless)?;
    live_system(&rt, "u0 = max(0, u0 - 1)", System::Falling)?;
    live(
        &rt,
        "grades: u0 = max(1, u1), u1 = u0",
        &CopiedGrade,
        CopiedGrade.rounds(),
    )?;
    live(
        &rt,
        "depths: u0 = max(-5, u1 lowered once), u1 = max(u0 lowered once, -2 if u0 >= -5)",
        &DescendingBook,
        DescendingBook.rounds(),
    )
}
