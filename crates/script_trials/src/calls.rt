// One call of each kind, and some that are refused.
use crate::session_results::blank_entries;
use anyhow::Result;
use report::{report_text, write_report};
use script_books::{BoundBook, GradeBook};
use script_graph::graph::Graph;
use sessions::{ScriptCall, Session, make_script_calls};
use solver::{Call, MOST_ROUNDS};

const SCRIPT: &[u8] = b"var i = 0..4; table cal[4] = 0..4; i := cal[i];";

/// A report in a buffer of its length, and in one that is a byte shorter.
fn try_report(rt: &HostRuntime, graph: &Graph) -> Result<()> {
    let report = report_text(rt.alloc(), SCRIPT)?;
    let mut buffer = vec![in rt.alloc(); 0; report.len()]?;
    let count = write_report(rt.alloc(), graph, MOST_ROUNDS, buffer.as_mut_slice())?;
    let is_same = buffer.as_slice() == report.as_slice();
    buffer.truncate(count.saturating_sub(1));
    let short = write_report(rt.alloc(), graph, MOST_ROUNDS, buffer.as_mut_slice());
    println!(rt; "write_report: {count}, the report: {is_same}, then {short:?}")?;
    Ok(())
}

/// The calls of sessions.
fn try_sessions(rt: &HostRuntime, graph: &Graph) -> Result<()> {
    let book = BoundBook::new(graph);
    let mut entries = blank_entries(rt.alloc(), &book)?;
    let mut bounds = Session::set_up(book, entries.as_mut_slice())?;
    println!(rt; "interval: {:?}", bounds.interval(0, 0))?;
    println!(rt;
        "rounds: {}, {}",
        bounds.round().rounds,
        bounds.run(MOST_ROUNDS)?.rounds
    )?;
    println!(rt; "interval: {:?}", bounds.interval(0, 0)?)?;
    println!(rt;
        "{}, {:?}, {}",
        bounds.value(0)?,
        bounds.choice(0)?,
        bounds.rounds()
    )?;
    bounds.restart();
    println!(rt; "settled after a restart: {}", bounds.is_settled())?;
    let book = GradeBook::new(graph);
    let mut entries = blank_entries(rt.alloc(), &book)?;
    let mut grades = Session::set_up(book, entries.as_mut_slice())?;
    grades.run(MOST_ROUNDS)?;
    println!(rt; "{}, {:?}", grades.grade(0, 0)?, grades.grade(4, 0))?;
    Ok(())
}

/// The same made in a row.
fn try_calls(rt: &HostRuntime, graph: &Graph) -> Result<()> {
    let calls = [
        ScriptCall::Plain(Call::Run(MOST_ROUNDS)),
        ScriptCall::Interval(0, 0),
        ScriptCall::Findings(1),
        ScriptCall::Findings(0),
    ];
    for answer in &make_script_calls(rt.alloc(), graph, &calls)? {
        match answer {
            Ok(_) => println!(rt; "answered")?,
            Err(refusal) => println!(rt; "{refusal}")?,
        }
    }
    Ok(())
}

pub fn try_all(rt: &HostRuntime) -> Result<()> {
    let graph = script_graph::read(rt.alloc(), SCRIPT)?;
    try_report(rt, &graph)?;
    try_sessions(rt, &graph)?;
    try_calls(rt, &graph)
}
