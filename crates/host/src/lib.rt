// The entry point for C: a script in, its report out.
#![tactic(auto)]

ghost use Rattle.std.specs.Prelude.{◌≡◌, ◌≤◌, ◌<◌, ◌^◌, pos, length, IfOk, MatchResult};
ghost use Rattle.report_theory.specs.Standing.{ReportsStand};
ghost use Rattle.host.specs.Answers.{negated as negated_of, Reported, NotReported, Answers};

use base::Refusal;
use report::write_report;
use script_graph::read;
use solver::MOST_ROUNDS;
use std::alloc::Global;

// Reads a script, and writes its report into the front of a buffer. Answers how many bytes it takes.
#[tactic(auto, using(crate::proofs::Reporting::told))]
fn read_and_report(heap: Global, script: &[u8], buffer: &mut [u8]) -> Result<usize, Refusal>
    ensures answer { MatchResult result (λ n. Reported script.now buffer.old buffer.new n) (λ e. NotReported script.now buffer.old buffer.new e) }
    ensures room { IfOk result (λ n. n ≤ length buffer.old) }
{
    let graph = read(heap, script)?;
    write_report(heap, &graph, MOST_ROUNDS, buffer)
}

// How many bytes there are, as an answer.
fn counted(length: usize) -> i64
    requires { length < 2 ^ 63 }
    ensures { result ≡ pos length }
{
    length as i64
}

// The number of a refusal, negated.
fn negated(refusal: Refusal) -> i64
    ensures { result ≡ negated_of refusal }
{
    -i64::from(refusal.reason.number())
}

// Reads a script, and writes its report into the front of a buffer. Answers how many bytes it takes, or the number of the refusal, negated.
#[tactic(auto, using(crate::proofs::Reporting::length_told, report_theory::proofs::Standing::reports_stand))]
#[unsafe(no_mangle)]
pub extern "C" fn fence_report(heap: Global, script: &[u8], report: &mut [u8]) -> i64
    ensures answer { Answers script.now report.old report.new result }
    ensures laws { ReportsStand }
{
    match read_and_report(heap, script, report) {
        Ok(length) => counted(length),
        Err(refusal) => negated(refusal),
    }
}

#[cfg(test)]
mod tests;
