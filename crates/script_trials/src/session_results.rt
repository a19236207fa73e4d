// What sessions answer of a script.
ghost use Rattle.std.specs.Prelude.{◌≡◌, map, true, IfOk};
ghost use Rattle.std.specs.List.{range_with_len};
ghost use Rattle.books.specs.Entries.{values};
ghost use Rattle.sessions.specs.Lives.{begun};
ghost use Rattle.solver.specs.Analyses.{state_of};
ghost use Rattle.script_graph.specs.Meaning.{meaning};
ghost use Rattle.soundness_theory.specs.Findings.{findings};
ghost use Rattle.report.specs.Laws.{SettlesAfter};
ghost use Rattle.script_trials.specs.Sessions.{interval_of, index_finding, width_of, pairs_of, value_numbered, AnswersOf};

use base::{Place, Reason, Refusal};
use books::{Book, Entry};
use kinds::{Bound, Grade, Kind};
use reference::{AbstractValue, IndexFinding, Interval, Readable, Results};
use script_books::{BoundBook, GradeBook};
use script_graph::graph::Graph;
use sessions::Session;
use solver::MOST_ROUNDS;
use soundness_theory::Finding;
use std::alloc::{AllocError, Global};

/// What sessions answer after one run each, and the rounds of the one on the bounds.
#[derive(Drop)]
pub struct SessionResults {
    pub results: Results,
    pub rounds: u16,
}

const BLANK: Finding = Finding {
    point: 0,
    place: Place { line: 0, column: 0 },
    variable: 0,
    lowest: Bound::Least,
    highest: Bound::Least,
    size: 0,
};

fn interval_of(ends: Option<(Bound, Bound)>) -> Interval
    ensures { result ≡ interval_of ends }
{
    let Some((lowest, highest)) = ends else {
        return Interval::EMPTY;
    };
    Interval {
        low: lowest.extended(),
        high: highest.extended(),
    }
}

fn index_finding(finding: Finding) -> IndexFinding
    ensures { result ≡ index_finding finding }
{
    IndexFinding {
        point: finding.point,
        place: finding.place,
        variable: finding.variable,
        interval: interval_of(Some((finding.lowest, finding.highest))),
        size: finding.size,
    }
}

/// Entries for a session to write over.
pub fn blank_entries<K: Kind, B: Book<K>>(
    alloc: Global,
    book: &B,
) -> Result<Vec<Entry<K>>, Refusal> {
    let entry = Entry {
        value: K::greatest(),
        choice: None,
    };
    Ok(vec![in alloc; entry; book.count()]?)
}

/// Runs a session that has just begun, and says after how many rounds it is settled.
fn settle<K: Kind, B: Book<K> + Copy>(session: &mut Session<'_, K, B>) -> Result<u16, Refusal>
    ensures settled { IfOk result (λ k. state_of session.old.analysis ≡ begun K.Kind.ops (B.Book.equations session.old.book) →
        (session.new.settled ≡ true) × SettlesAfter K.Kind.ops (B.Book.equations session.old.book) k (values session.new.analysis.list.now)) }
    ensures same_book { session.new.book ≡ session.old.book }
{
    let progress = session.run(MOST_ROUNDS)?;
    if !progress.settled {
        return Err(Reason::NotSettled.into());
    }
    Ok(progress.rounds)
}

/// How many pairs of a point and a variable there are.
fn pair_count(graph: &Graph) -> usize
    ensures { result ≡ pairs_of graph.now }
{
    graph.points() * graph.variables().len()
}

/// The intervals and grades of all variables, point by point.
fn values_of(
    alloc: Global,
    graph: &Graph,
    bounds: &Session<'_, Bound, BoundBook<'_>>,
    grades: &Session<'_, Grade, GradeBook<'_>>,
) -> Result<Vec<AbstractValue>, Refusal>
    ensures { IfOk result (λ found. found.items ≡
        map (value_numbered (meaning bounds.now.book.graph.now) (values bounds.now.analysis.list.now)
        (meaning grades.now.book.graph.now) (values grades.now.analysis.list.now) (width_of graph.now))
        (range_with_len 0 (pairs_of graph.now))) }
{
    let variables = graph.variables().len();
    let mut values = Vec::new(alloc);
    for pair in 0..pair_count(graph) {
        let (point, variable) = (pair / variables, pair % variables);
        values.push(AbstractValue {
            interval: interval_of(bounds.interval(point, variable)?),
            grade: grades.grade(point, variable)?.extended(),
        })?;
    }
    Ok(values)
}

/// The findings, in the order of the text.
fn findings_of(
    alloc: Global,
    graph: &Graph,
    session: &Session<'_, Bound, BoundBook<'_>>,
) -> Result<Vec<Finding>, Refusal>
    ensures { IfOk result (λ found. found.items ≡ findings
        (meaning session.now.book.graph.now) (values session.now.analysis.list.now)) }
{
    let mut list = vec![in alloc; BLANK; graph.lookups().len()]?;
    let count = session.findings(list.as_mut_slice())?;
    list.truncate(count);
    Ok(list)
}

fn index_findings(alloc: Global, list: &[Finding]) -> Result<Vec<IndexFinding>, AllocError>
    ensures { IfOk result (λ found. found.items ≡ map index_finding list.now) }
{
    list.iter()
        .map(|finding| index_finding(*finding))
        .collect(alloc)
}

/// What sessions answer, of one run from set-up on each.
pub fn session_results(alloc: Global, graph: &Graph) -> Result<SessionResults, Refusal>
    ensures { IfOk result (AnswersOf graph.now) }
{
    let bound_book = BoundBook::new(graph);
    let mut bound_entries = blank_entries(alloc, &bound_book)?;
    let mut bounds = Session::set_up(bound_book, bound_entries.as_mut_slice())?;
    let rounds = settle(&mut bounds)?;
    let grade_book = GradeBook::new(graph);
    let mut grade_entries = blank_entries(alloc, &grade_book)?;
    let mut grades = Session::set_up(grade_book, grade_entries.as_mut_slice())?;
    settle(&mut grades)?;
    let found = findings_of(alloc, graph, &bounds)?;
    let results = Results {
        variables: graph.variables().len(),
        values: values_of(alloc, graph, &bounds, &grades)?,
        findings: index_findings(alloc, &found)?,
    };
    Ok(SessionResults { results, rounds })
}
