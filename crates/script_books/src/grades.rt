// The grade book of a graph.
ghost use Rattle.std.specs.Prelude.{◌≡◌, ◌<◌, cond, Ok, Err, [], ◌∷◌};
ghost use Rattle.kinds.specs.declared.grade.Grade.TheVariants.{Written};
ghost use Rattle.base.specs.Reasons.{nowhere};
ghost use Rattle.base.specs.declared.Reason.TheVariants.{NotThere};
ghost use Rattle.books.specs.Books.{nth};
ghost use Rattle.books.specs.Questions.{found};
ghost use Rattle.books.specs.Forms.{constant};
ghost use Rattle.language_theory.specs.WellFormed.{ValueFits, ActionFits};
ghost use Rattle.script_equations_theory.specs.Bounds.{variables_of, is_there};
ghost use Rattle.script_equations_theory.specs.Grades.{grade_book, grade_at, grades_at, grade_assigned, grade_of as grade_for, source_grade, grade_copied};
ghost use Rattle.script_graph.specs.Meaning.{meaning};
ghost use Rattle.script_books.specs.Fitted.{grades_well};

use crate::spots::{Spot, edge_to, edges_to, number_of, spot_of, start_of};
use crate::start::Start;
use base::{Reason, Refusal};
use books::{Alternative, Book, Term, Terms, Test};
use kinds::{Grade, NoWeight};
use language_theory::{Action, Source, Value};
use script_graph::graph::Graph;

// The equations of where the value of each variable of a script comes from at each point. A view of the graph, as the bound book is.
#[derive(Clone, Copy)]
pub struct GradeBook<'a> {
    graph: &'a Graph,
}

impl<'a> GradeBook<'a> {
    // The book of a graph.
    pub fn new(graph: &'a Graph) -> GradeBook<'a>
        ensures { result.graph.now ≡ graph.now }
    {
        GradeBook { graph }
    }

    // The graph whose book it is.
    pub fn graph(&self) -> &'a Graph
        ensures { result.now ≡ self.now.graph.now }
    {
        self.graph
    }

    // The unknown of the grade of a variable at a point, if both are there.
    pub fn grade_unknown(&self, point: usize, variable: usize) -> Result<usize, Refusal>
        ensures { result ≡ cond (is_there (meaning self.now.graph.now) point variable) (Ok (grade_at (variables_of (meaning self.now.graph.now)) point variable)) (Err (nowhere NotThere)) }
    {
        number_of(self.graph, point, variable)
    }
}

// An alternative of grades.
type Choice = Alternative<Grade, NoWeight>;

// The grade of a value by its source.
fn graded(source: Source) -> Grade
    ensures { result ≡ source_grade source }
{
    match source {
        Source::Written => Grade::Written,
        Source::Sensed => Grade::Sensed,
        Source::Heard => Grade::Heard,
    }
}

// The alternative that is always this unknown.
fn copied(unknown: usize) -> Choice
    ensures { result ≡ grade_copied unknown }
{
    Alternative::shifted(unknown, NoWeight::Zero)
}

// The grade of a variable behind its assignment.
fn assigned(start: Start, target: usize, value: Value) -> Choice
    requires named { target < start.variables }
    requires fits { ValueFits start.variables value }
    ensures { result ≡ grade_assigned start.variables start.point target value }
{
    match value {
        Value::AnyOf { source, .. } => Alternative {
            test: Test::Single(start.grade(target), Grade::Written),
            terms: Terms::One(Term::Constant(graded(source))),
        },
        Value::TableEntry { index, .. } => copied(start.grade(index)),
        Value::Sum { variable, .. } => copied(start.grade(variable)),
        Value::Negation { variable } => copied(start.grade(variable)),
    }
}

// The grade of a variable behind an edge.
fn grade_of(start: Start, variable: usize, action: Action) -> Choice
    requires named { variable < start.variables }
    requires fits { ActionFits start.variables action }
    ensures { result ≡ grade_for start.variables start.point variable action }
{
    match action {
        Action::Assign { target, value } if variable == target => assigned(start, target, value),
        Action::Skip | Action::Assign { .. } | Action::Assume { .. } => copied(start.grade(
            variable,
        )),
    }
}

// The alternatives of a variable at a point other than the first: one for each edge to it.
fn behind(graph: &Graph, spot: Spot, number: usize) -> Result<Choice, Refusal>
    requires variable { spot.variable < variables_of (meaning graph.now) }
    requires point { spot.point < graph.now.points }
    requires later { 0 < spot.point }
    ensures { result ≡ found (nth (grades_at (meaning graph.now) spot.point spot.variable) number) }
{
    let edge = edge_to(graph, spot.point, number)?;
    let start = start_of(graph, edge);
    Ok(grade_of(start, spot.variable, edge.action))
}

// Those at point 0: one, since what is declared is written in the script.
fn declared(number: usize) -> Result<Choice, Refusal>
    ensures { result ≡ found (nth (constant Written ∷ []) number) }
{
    if number > 0 {
        return Err(Reason::NotThere.into());
    }
    Ok(Alternative::constant(Grade::Written))
}

impl Book<Grade> for GradeBook<'_> {
    ghost equations = { λ b. grade_book (meaning b.graph.now) };

    ghost well = { λ b. grades_well b.graph.now };

    // One for each variable at each point.
    #[tactic(auto, using(crate::proofs::Edges::grade_count_is))]
    fn count(&self) -> usize {
        self.graph.variables().len() * self.graph.points()
    }

    // One at point 0, and elsewhere one for each edge to the point.
    #[tactic(auto, using(books::proofs::Rows::counted_inside, books::proofs::Rows::counted_past, crate::proofs::Edges::grade_width_is))]
    fn alternatives(&self, unknown: usize) -> Result<usize, Refusal> {
        let spot = spot_of(self.graph, unknown)?;
        Ok(if spot.point == 0 {
            1
        } else {
            edges_to(self.graph, spot.point).len()
        })
    }

    // What is declared at point 0, and elsewhere what the edge says.
    #[tactic(auto, using(books::proofs::Rows::asked_inside, books::proofs::Rows::asked_past))]
    fn alternative(&self, unknown: usize, number: usize) -> Result<Choice, Refusal> {
        let spot = spot_of(self.graph, unknown)?;
        if spot.point == 0 {
            declared(number)
        } else {
            behind(self.graph, spot, number)
        }
    }
}
