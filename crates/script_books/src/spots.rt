// Variables at points, and the unknowns and edges that belong to them.
ghost use Rattle.std.specs.Prelude.{◌≡◌, ◌+◌, ◌*◌, ◌/◌, ◌%◌, ◌<◌, ◌≤◌, cond, Ok, Err, IfOk, MatchResult};
ghost use Rattle.base.specs.Reasons.{nowhere};
ghost use Rattle.base.specs.declared.Reason.TheVariants.{NotThere};
ghost use Rattle.books.specs.Books.{nth};
ghost use Rattle.books.specs.Questions.{found};
ghost use Rattle.language_theory.specs.Graphs.{incoming};
ghost use Rattle.language_theory.specs.WellFormed.{EdgeFits};
ghost use Rattle.script_equations_theory.specs.Bounds.{variables_of, is_there, upper as upper_at, lower as lower_at};
ghost use Rattle.script_equations_theory.specs.Grades.{grade_at};
ghost use Rattle.script_graph.specs.Meaning.{meaning};

use crate::start::Start;
use base::{Reason, Refusal};
use language_theory::Edge;
use script_graph::graph::Graph;

// A variable at a point.
#[derive(Clone, Copy)]
pub(crate) struct Spot {
    pub point: usize,
    pub variable: usize,
}

// The variable and the point of a number that counts the variables point by point.
pub(crate) fn spot_of(graph: &Graph, number: usize) -> Result<Spot, Refusal>
    ensures { MatchResult result (λ s. (number < variables_of (meaning graph.now) * graph.now.points) × (s.point ≡ number / variables_of (meaning graph.now)) × (s.variable ≡ number % variables_of (meaning graph.now)) × (s.point < graph.now.points) × (s.variable < variables_of (meaning graph.now))) (λ e. (variables_of (meaning graph.now) * graph.now.points ≤ number) × (e ≡ nowhere NotThere)) }
{
    let variables = graph.variables().len();
    if number >= variables * graph.points() {
        return Err(Reason::NotThere.into());
    }
    Ok(Spot {
        point: number / variables,
        variable: number % variables,
    })
}

// The number of a variable at a point, if both are there.
pub(crate) fn number_of(graph: &Graph, point: usize, variable: usize) -> Result<usize, Refusal>
    ensures value { result ≡ cond (is_there (meaning graph.now) point variable) (Ok (grade_at (variables_of (meaning graph.now)) point variable)) (Err (nowhere NotThere)) }
    ensures few { IfOk result (λ u. u < 768) }
{
    let variables = graph.variables().len();
    if point >= graph.points() || variable >= variables {
        return Err(Reason::NotThere.into());
    }
    Ok(variables * point + variable)
}

// The edges to a point.
pub(crate) fn edges_to(graph: &Graph, point: usize) -> &[Edge]
    requires { point < graph.now.points }
    ensures { result.now ≡ incoming point graph.now.edges.items }
{
    graph.incoming(point).unwrap_or(&[])
}

// An edge to a point, by its number among them.
#[tactic(auto, using(crate::proofs::Edges::found_at, crate::proofs::Edges::found_past))]
pub(crate) fn edge_to(graph: &Graph, point: usize, number: usize) -> Result<Edge, Refusal>
    requires { point < graph.now.points }
    ensures edge { result ≡ found (nth (incoming point graph.now.edges.items) number) }
    ensures fits { IfOk result (λ e. EdgeFits (meaning graph.now) e) }
{
    match edges_to(graph, point).get(number) {
        Some(edge) => Ok(*edge),
        None => Err(Reason::NotThere.into()),
    }
}

// Where an edge of the graph starts.
pub(crate) fn start_of(graph: &Graph, edge: Edge) -> Start
    requires { EdgeFits (meaning graph.now) edge }
    ensures { (result.variables ≡ variables_of (meaning graph.now)) × (result.point ≡ edge.source) }
{
    Start {
        variables: graph.variables().len(),
        point: edge.source,
    }
}

impl Start {
    // The unknown of the upper bound of a variable.
    pub(crate) fn upper(self, variable: usize) -> usize
        requires { variable < self.variables }
        ensures { result ≡ upper_at self.variables self.point variable }
    {
        2 * self.grade(variable)
    }

    // The unknown of its lower bound negated.
    pub(crate) fn lower(self, variable: usize) -> usize
        requires { variable < self.variables }
        ensures { result ≡ lower_at self.variables self.point variable }
    {
        2 * self.grade(variable) + 1
    }

    // The unknown of its grade.
    pub(crate) fn grade(self, variable: usize) -> usize
        requires { variable < self.variables }
        ensures value { result ≡ grade_at self.variables self.point variable }
        ensures few { result < 768 }
    {
        self.variables * self.point + variable
    }
}
