// Reads scripts one behind the other from standard input, and prints what becomes of each.
//
// A line `case NAME` begins a case. Its script is the lines up to the next such line, with a line break between two
// of them and none behind the last. A line that begins with @ stands for more than it says:
//   @repeat N TEXT   the line TEXT, N times
//   @fill N          blanks, until the script has N bytes
//   @bytes B B ..    the bytes of these numbers
#![tactic(auto)]

mod details;
mod script;

use base::Refusal;
use details::Details;
use listing::{Listing, Summary};
use script::script_of;
use script_graph::graph::Graph;
use std::io;

// Prints what became of a case: of one whose name begins with `list` the whole graph, of others a line.
fn tell(rt: &HostRuntime, name: &str, answer: Result<Graph, Refusal>) -> io::Result<()> {
    match answer {
        Ok(graph) if name.starts_with("list") => {
            println!(rt; "{name}: {}{}", Listing(&graph), Details(&graph))
        }
        Ok(graph) => println!(rt; "{name}: {}", Summary(&graph)),
        Err(refusal) => println!(rt; "{name}: {refusal}"),
    }
}

// Reads the cases of a text.
fn run(rt: &HostRuntime, text: &str) -> anyhow::Result<()> {
    let text = text.strip_suffix('\n').unwrap_or(text);
    let text = text.strip_prefix("case ").unwrap_or(text);
    for case in text.split("\ncase ") {
        let (name, lines) = case.split_once('\n').unwrap_or((case, ""));
        let script = script_of(rt.alloc(), lines)?;
        tell(rt, name, script_graph::read(rt.alloc(), &script))?;
    }
    Ok(())
}

// Reads the cases on standard input.
fn main(rt: HostRuntime) -> anyhow::Result<()> {
    let text = io::read_to_string(rt.alloc(), rt.stdin())?;
    run(&rt, &text)
}
