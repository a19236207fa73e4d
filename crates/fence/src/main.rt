// Reads a script from standard input, and prints its report: `fence`. `fence --listing` prints the points and edges of the script, `fence --help` what the program does. A refused script gets one line.
#![tactic(auto)]

ghost use Rattle.std.specs.Prelude.{◌≡◌, ◌≤◌, IfOk, vec_len};
ghost use Rattle.std.specs.Process.{exit_status};

use anyhow::anyhow;
use base::Refusal;
use listing::Listing;
use report::report_text;
use script_graph::read;
use std::alloc::Global;
use std::io::{Read, Write};
use std::process::ExitCode;
use std::{env, io};

// One byte past the limit of a script tells that it is too long, so no more is read.
const ENOUGH: usize = parser::MOST_BYTES + 1;

const HELP: &str = "fence: a check of receiver scripts

usage: fence < SCRIPT             prints how far each variable can go at each point, how far its
                                  value can be trusted, and which table reads may fall outside
       fence --listing < SCRIPT   prints the points and edges of the script
       fence --help               prints this

A text that is refused gets one line: refused, layer, number, line, column; and status 1.";

// What the program is asked to do.
#[derive(Clone, Copy)]
enum Job {
    Report,
    Listing,
    Help,
}

// The script on standard input, or as much of it as tells that it is too long.
fn script_from_input(rt: &HostRuntime) -> io::Result<Vec<u8>>
    ensures { IfOk result (λ script. vec_len script ≤ 8193) }
{
    let mut script = Vec::new(rt.alloc());
    // `as`: no `From` leads from `usize` to `u64`.
    rt.stdin().take(ENOUGH as u64).read_to_end(&mut script)?;
    script.truncate(ENOUGH);
    Ok(script)
}

// Says why a text is refused. Answers the status.
fn print_refusal(rt: &HostRuntime, refusal: Refusal) -> io::Result<ExitCode>
    ensures { IfOk result (λ status. exit_status status ≡ 1) }
{
    println!(rt; "{refusal}")?;
    Ok(ExitCode::FAILURE)
}

// Prints the report of the script on standard input. Answers the status.
fn print_report(rt: &HostRuntime) -> io::Result<ExitCode>
    ensures { IfOk result (λ status. exit_status status ≤ 1) }
{
    let script = script_from_input(rt)?;
    match report_text(rt.alloc(), &script) {
        Ok(text) => rt.stdout().write_all(&text)?,
        Err(refusal) => return print_refusal(rt, refusal),
    }
    Ok(ExitCode::SUCCESS)
}

// Prints the points and edges of the script on standard input. Answers the status.
fn print_listing(rt: &HostRuntime) -> io::Result<ExitCode>
    ensures { IfOk result (λ status. exit_status status ≤ 1) }
{
    let script = script_from_input(rt)?;
    match read(rt.alloc(), &script) {
        Ok(graph) => println!(rt; "{}", Listing(&graph))?,
        Err(refusal) => return print_refusal(rt, refusal),
    }
    Ok(ExitCode::SUCCESS)
}

// What the arguments ask for.
fn job_asked(rt: &HostRuntime) -> anyhow::Result<Job> {
    let mut words = env::args(rt)?.skip(1);
    let Some(word) = words.next() else {
        return Ok(Job::Report);
    };
    if words.next().is_some() {
        return Err(anyhow!("one argument at most: try fence --help"));
    }
    match word.as_str() {
        "--listing" => Ok(Job::Listing),
        "--help" => Ok(Job::Help),
        _ => Err(anyhow!("unknown argument {word}: try fence --help")),
    }
}

// Does what the arguments ask for. Answers the status: 0, or 1 where a text is refused.
fn run(rt: &HostRuntime) -> anyhow::Result<ExitCode>
    ensures { IfOk result (λ status. exit_status status ≤ 1) }
{
    match job_asked(rt)? {
        Job::Report => Ok(print_report(rt)?),
        Job::Listing => Ok(print_listing(rt)?),
        Job::Help => {
            println!(rt; "{HELP}")?;
            Ok(ExitCode::SUCCESS)
        }
    }
}

// Runs the program. Where it cannot do what it is asked for, it says why, with status 2.
fn main(rt: HostRuntime) -> ExitCode {
    match run(&rt) {
        Ok(status) => status,
        Err(error) => {
            // Where even that cannot be said, the status tells it.
            let _ = eprintln!(rt; "fence: {error}");
            ExitCode::from(2)
        }
    }
}
