// What two settled sessions say of a script, line by line.
ghost use Rattle.std.specs.Prelude.{◌≡◌, ◌++◌, ◌<◌, map, length, MatchResult};
ghost use Rattle.kinds.specs.Values.{grades as grades_kind};
ghost use Rattle.books.specs.Books.{at};
ghost use Rattle.books.specs.Entries.{values};
ghost use Rattle.sessions.specs.Bounds.{variables_of};
ghost use Rattle.sessions.specs.Grades.{grade_at};
ghost use Rattle.base.specs.Reasons.{no_memory};
ghost use Rattle.soundness_theory.specs.Findings.{findings};
ghost use Rattle.script_graph.specs.Meaning.{meaning};
ghost use Rattle.report_theory.specs.Texts.{lines, row_fields, found_fields};
ghost use Rattle.report_theory.specs.Reports.{found, report_of, rows_at, found_at, name_of};
ghost use Rattle.report.specs.Lines.{field_text, texts};
ghost use Rattle.report.specs.Settles.{SettledOn};

use crate::lines::{Field, end_line, found_line, head_line, row_line};
use base::{Place, Reason, Refusal};
use kinds::{Bound, Grade};
use parser::Named;
use script_books::{BoundBook, GradeBook};
use script_graph::graph::Graph;
use sessions::Session;
use soundness_theory::Finding;
use std::alloc::Global;

// A finding to be written over.
const BLANK: Finding = Finding {
    point: 0,
    place: Place { line: 0, column: 0 },
    variable: 0,
    lowest: Bound::Least,
    highest: Bound::Least,
    size: 0,
};

// A session on the bounds of a script, and one on its grades.
pub(crate) type Bounds<'a> = Session<'a, Bound, BoundBook<'a>>;

pub(crate) type Grades<'a> = Session<'a, Grade, GradeBook<'a>>;

// The lines of a point, one for each variable, behind those that are there.
fn push_rows<'a>(
    heap: Global,
    lines: &mut Vec<Vec<Field<'a>>>,
    graph: &'a Graph,
    bounds: &Bounds<'_>,
    grades: &Grades<'_>,
    point: usize,
) -> Result<(), Refusal>
    requires { point < graph.now.points }
    ensures { SettledOn bounds.now.settled bounds.now.book.graph.now graph.now → SettledOn grades.now.settled grades.now.book.graph.now graph.now → MatchResult result (λ _. texts lines.new.items ≡ texts lines.old.items ++ map row_fields (rows_at (meaning graph.now) (values bounds.now.analysis.list.now) (values grades.now.analysis.list.now) point)) (λ e. e ≡ no_memory) }
{
    for (variable, declared) in graph.variables().iter().enumerate() {
        let interval = bounds.interval(point, variable)?;
        let grade = grades.grade(point, variable)?;
        let line = row_line(heap, point, declared.name(), interval, grade)?;
        lines.push(line)?;
    }
    Ok(())
}

// The findings, in a list of their own.
fn list_findings(heap: Global, graph: &Graph, bounds: &Bounds<'_>) -> Result<Vec<Finding>, Refusal>
    ensures { SettledOn bounds.now.settled bounds.now.book.graph.now graph.now → MatchResult result (λ fs. fs.items ≡ findings (meaning graph.now) (values bounds.now.analysis.list.now)) (λ e. e ≡ no_memory) }
{
    let mut list = vec![in heap; BLANK; graph.lookups().len()]?;
    let count = bounds.findings(list.as_mut_slice())?;
    list.truncate(count);
    Ok(list)
}

// The line of a finding.
fn finding_line<'a>(
    heap: Global,
    graph: &'a Graph,
    grades: &Grades<'_>,
    finding: Finding,
) -> Result<Vec<Field<'a>>, Refusal>
    ensures { SettledOn grades.now.settled grades.now.book.graph.now graph.now → finding.point < graph.now.points → finding.variable < variables_of (meaning graph.now) → MatchResult result (λ l. map field_text l.items ≡ found_fields (found finding (name_of (meaning graph.now) finding.variable) (at grades_kind (values grades.now.analysis.list.now) (grade_at (variables_of (meaning graph.now)) finding.point finding.variable)))) (λ e. e ≡ no_memory) }
{
    let declared = graph.variables().get(finding.variable);
    let variable = declared.ok_or(Reason::NotThere)?;
    let grade = grades.grade(finding.point, finding.variable)?;
    found_line(heap, finding, variable.name(), grade)
}

// The lines of the findings, behind those that are there. Answers how many there are.
#[tactic(auto, using(crate::proofs::Settled::next_there, crate::proofs::Rows::line_of_next, std::proofs::lemmas::List::take_all))]
fn push_findings<'a>(
    heap: Global,
    lines: &mut Vec<Vec<Field<'a>>>,
    graph: &'a Graph,
    bounds: &Bounds<'_>,
    grades: &Grades<'_>,
) -> Result<usize, Refusal>
    ensures { SettledOn bounds.now.settled bounds.now.book.graph.now graph.now → SettledOn grades.now.settled grades.now.book.graph.now graph.now → MatchResult result (λ n. (n ≡ length (findings (meaning graph.now) (values bounds.now.analysis.list.now))) × (texts lines.new.items ≡ texts lines.old.items ++ map (λ f. found_fields (found_at (meaning graph.now) (values bounds.now.analysis.list.now) (values grades.now.analysis.list.now) f)) (findings (meaning graph.now) (values bounds.now.analysis.list.now)))) (λ e. e ≡ no_memory) }
{
    let list = list_findings(heap, graph, bounds)?;
    for finding in &list {
        let line = finding_line(heap, graph, grades, *finding)?;
        lines.push(line)?;
    }
    Ok(list.len())
}

// All lines of the report, of settled sessions.
pub(crate) fn gather<'a>(
    heap: Global,
    graph: &'a Graph,
    bounds: &Bounds<'_>,
    grades: &Grades<'_>,
    rounds: u16,
) -> Result<Vec<Vec<Field<'a>>>, Refusal>
    ensures { SettledOn bounds.now.settled bounds.now.book.graph.now graph.now → SettledOn grades.now.settled grades.now.book.graph.now graph.now → MatchResult result (λ ls. texts ls.items ≡ lines (report_of (meaning graph.now) (values bounds.now.analysis.list.now) (values grades.now.analysis.list.now) rounds)) (λ e. e ≡ no_memory) }
{
    let mut lines = Vec::new(heap);
    lines.push(head_line(heap, graph.points(), rounds)?)?;
    for point in 0..graph.points() {
        push_rows(heap, &mut lines, graph, bounds, grades, point)?;
    }
    let count = push_findings(heap, &mut lines, graph, bounds, grades)?;
    lines.push(end_line(heap, count)?)?;
    Ok(lines)
}
