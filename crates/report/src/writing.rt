// The report of a script, and how it is written into a lent buffer.
ghost use Rattle.std.specs.Prelude.{◌≡◌, ◌<◌, true, None, length, MatchResult};
ghost use Rattle.books.specs.Entries.{values};
ghost use Rattle.sessions.specs.Lives.{begun};
ghost use Rattle.solver.specs.Analyses.{state_of};
ghost use Rattle.base.specs.Reasons.{nowhere, no_memory};
ghost use Rattle.base.specs.declared.Reason.TheVariants.{BufferTooShort};
ghost use Rattle.report_theory.specs.Standing.{ReportsStand};
ghost use Rattle.base.specs.Fronts.{Front};
ghost use Rattle.script_graph.specs.Meaning.{meaning};
ghost use Rattle.report.specs.Lines.{texts, lines_text};
ghost use Rattle.report.specs.Settles.{SettlesWithin, NoEnd};
ghost use Rattle.report.specs.Reported.{Gathered, NoReport, Written, NotWritten};
ghost use Rattle.report.specs.Scripts.{ReportOf, NoReportOf};

use crate::gathering::gather;
use crate::lines::Field;
use crate::writers::{room_behind, write_lines};
use base::{Reason, Refusal};
use books::{Book, Entry};
use kinds::{Bound, Grade, Kind};
use script_books::{BoundBook, GradeBook};
use script_graph::graph::Graph;
use script_graph::read;
use sessions::Session;
use solver::MOST_ROUNDS;
use std::alloc::Global;

// The lines of a script's report, with names that are lent from its graph.
#[derive(Drop)]
pub struct Report<'a> {
    lines: Vec<Vec<Field<'a>>>,
}

// An entry for an analysis to write over.
fn blank<K: Kind>(value: K) -> Entry<K>
    ensures { result ≡ record { value = value; choice = None } }
{
    Entry {
        value,
        choice: None,
    }
}

// Runs a session with a budget, and says after how many rounds it is settled, where it has just begun.
fn settle<K: Kind, B: Book<K> + Copy>(
    session: &mut Session<'_, K, B>,
    budget: usize,
) -> Result<u16, Refusal>
    ensures end { state_of session.old.analysis ≡ begun K.Kind.ops (B.Book.equations session.old.book) → MatchResult result (λ k. (session.new.settled ≡ true) × SettlesWithin K.Kind.ops (B.Book.equations session.old.book) budget k (values session.new.analysis.list.now)) (λ e. NoEnd K.Kind.ops (B.Book.equations session.old.book) budget e) }
    ensures same_book { session.new.book ≡ session.old.book }
{
    let progress = session.run(budget)?;
    if !progress.settled {
        return Err(Reason::NotSettled.into());
    }
    Ok(progress.rounds)
}

impl<'a> Report<'a> {
    // The report of a script, whose two analyses are run with this budget each.
    pub fn new(heap: Global, graph: &'a Graph, budget: usize) -> Result<Report<'a>, Refusal>
        ensures report { MatchResult result (λ r. Gathered (meaning graph.now) budget (texts r.lines.items)) (λ e. NoReport (meaning graph.now) budget e) }
    {
        let bound_book = BoundBook::new(graph);
        let mut bound_list = vec![in heap; blank(Bound::Least); bound_book.count()]?;
        let mut bounds = Session::set_up(bound_book, bound_list.as_mut_slice())?;
        let rounds = settle(&mut bounds, budget)?;
        let grade_book = GradeBook::new(graph);
        let mut grade_list = vec![in heap; blank(Grade::Unreached); grade_book.count()]?;
        let mut grades = Session::set_up(grade_book, grade_list.as_mut_slice())?;
        settle(&mut grades, budget)?;
        let lines = gather(heap, graph, &bounds, &grades, rounds)?;
        Ok(Report { lines })
    }

    // Writes it into the front of a buffer. Answers how many bytes that takes.
    pub fn write(&self, buffer: &mut [u8]) -> Result<usize, Refusal>
        ensures { MatchResult result (λ n. Front (lines_text self.now.lines.items) buffer.old buffer.new n) (λ e. (length buffer.old < length (lines_text self.now.lines.items)) × (buffer.new ≡ buffer.old) × (e ≡ nowhere BufferTooShort)) }
    {
        if room_behind(&self.lines, buffer.len()).is_none() {
            return Err(Reason::BufferTooShort.into());
        }
        Ok(write_lines(buffer, &self.lines))
    }

    // Its text. Its length is all that a `usize` counts but what is left behind it; a longer text has no room in memory.
    pub fn text(&self, heap: Global) -> Result<Vec<u8>, Refusal>
        ensures { MatchResult result (λ t. t.items ≡ lines_text self.now.lines.items) (λ e. e ≡ no_memory) }
    {
        let left = room_behind(&self.lines, usize::MAX);
        let left = left.ok_or(Reason::OutOfMemory)?;
        let mut text = vec![in heap; 0; usize::MAX - left]?;
        write_lines(text.as_mut_slice(), &self.lines);
        Ok(text)
    }
}

// Runs both analyses of a script with this budget each, and writes the report into the front of a buffer. Answers how many bytes it takes.
#[tactic(auto, using(report_theory::proofs::Standing::reports_stand))]
pub fn write_report(
    heap: Global,
    graph: &Graph,
    budget: usize,
    buffer: &mut [u8],
) -> Result<usize, Refusal>
    ensures report { MatchResult result (λ n. Written (meaning graph.now) budget buffer.old buffer.new n) (λ e. NotWritten (meaning graph.now) budget buffer.old buffer.new e) }
    ensures laws { ReportsStand }
{
    Report::new(heap, graph, budget)?.write(buffer)
}

// The text of the report of a script, whose two analyses are run with the largest budget.
#[tactic(auto, using(report_theory::proofs::Standing::reports_stand))]
pub fn report_text(heap: Global, script: &[u8]) -> Result<Vec<u8>, Refusal>
    ensures text { MatchResult result (λ t. ReportOf script.now t.items) (λ e. NoReportOf script.now e) }
    ensures laws { ReportsStand }
{
    let graph = read(heap, script)?;
    Report::new(heap, &graph, MOST_ROUNDS)?.text(heap)
}
