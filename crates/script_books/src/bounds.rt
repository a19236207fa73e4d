// The bound book of a graph.
ghost use Rattle.std.specs.Prelude.{◌≡◌, ◌<◌, cond, Ok, Err, [], ◌∷◌};
ghost use Rattle.kinds.specs.declared.bound.Bound.TheVariants.{Whole};
ghost use Rattle.base.specs.Reasons.{nowhere};
ghost use Rattle.base.specs.declared.Reason.TheVariants.{NotThere};
ghost use Rattle.books.specs.Books.{nth};
ghost use Rattle.books.specs.Forms.{constant};
ghost use Rattle.books.specs.Questions.{found};
ghost use Rattle.script_equations_theory.specs.Bounds.{bound_book, uppers, lowers, variables_of, is_there, upper as upper_number};
ghost use Rattle.script_graph.specs.Meaning.{meaning};
ghost use Rattle.script_books.specs.Fitted.{bounds_well};

use crate::ends::{Choice, lower_of, negated, upper_of};
use crate::spots::{Spot, edge_to, edges_to, number_of, spot_of, start_of};
use base::{Reason, Refusal};
use books::{Alternative, Book};
use kinds::Bound;
use script_graph::graph::Graph;

// The equations of how far each variable of a script can go at each point. A view of the graph: an alternative is computed from its edge when it is asked for.
#[derive(Clone, Copy)]
pub struct BoundBook<'a> {
    graph: &'a Graph,
}

impl<'a> BoundBook<'a> {
    // The book of a graph.
    pub fn new(graph: &'a Graph) -> BoundBook<'a>
        ensures { result.graph.now ≡ graph.now }
    {
        BoundBook { graph }
    }

    // The graph whose book it is.
    pub fn graph(&self) -> &'a Graph
        ensures { result.now ≡ self.now.graph.now }
    {
        self.graph
    }

    // The unknown of the upper bound of a variable at a point, if both are there. The next one is that of its lower bound, negated.
    pub fn upper_unknown(&self, point: usize, variable: usize) -> Result<usize, Refusal>
        ensures { result ≡ cond (is_there (meaning self.now.graph.now) point variable) (Ok (upper_number (variables_of (meaning self.now.graph.now)) point variable)) (Err (nowhere NotThere)) }
    {
        Ok(2 * number_of(self.graph, point, variable)?)
    }
}

// The only alternative of an unknown at point 0: an end of the declared range.
fn declared(end: i64, number: usize) -> Result<Choice, Refusal>
    ensures { result ≡ found (nth (constant (Whole end) ∷ []) number) }
{
    if number > 0 {
        return Err(Reason::NotThere.into());
    }
    Ok(Alternative::constant(Bound::Whole(end)))
}

// The alternatives of an upper bound: at point 0 what is declared, and elsewhere one for each edge to the point.
fn upper_at(graph: &Graph, spot: Spot, number: usize) -> Result<Choice, Refusal>
    requires variable { spot.variable < variables_of (meaning graph.now) }
    requires point { spot.point < graph.now.points }
    ensures { result ≡ found (nth (uppers (meaning graph.now) spot.point spot.variable) number) }
{
    if spot.point == 0 {
        return declared(graph.variables()[spot.variable].range.high, number);
    }
    let edge = edge_to(graph, spot.point, number)?;
    let start = start_of(graph, edge);
    Ok(upper_of(start, spot.variable, edge.action))
}

// Those of a lower bound, negated.
fn lower_at(graph: &Graph, spot: Spot, number: usize) -> Result<Choice, Refusal>
    requires variable { spot.variable < variables_of (meaning graph.now) }
    requires point { spot.point < graph.now.points }
    ensures { result ≡ found (nth (lowers (meaning graph.now) spot.point spot.variable) number) }
{
    if spot.point == 0 {
        let low = graph.variables()[spot.variable].range.low;
        return declared(negated(low), number);
    }
    let edge = edge_to(graph, spot.point, number)?;
    let start = start_of(graph, edge);
    Ok(lower_of(start, spot.variable, edge.action))
}

impl Book<Bound> for BoundBook<'_> {
    ghost equations = { λ b. bound_book (meaning b.graph.now) };

    ghost well = { λ b. bounds_well b.graph.now };

    // Two for each variable at each point.
    #[tactic(auto, using(crate::proofs::Edges::bound_count_is))]
    fn count(&self) -> usize {
        2 * (self.graph.variables().len() * self.graph.points())
    }

    // One at point 0, and elsewhere one for each edge to the point.
    #[tactic(auto, using(books::proofs::Rows::counted_inside, books::proofs::Rows::counted_past, crate::proofs::Edges::bound_width_is))]
    fn alternatives(&self, unknown: usize) -> Result<usize, Refusal> {
        let spot = spot_of(self.graph, unknown / 2)?;
        Ok(if spot.point == 0 {
            1
        } else {
            edges_to(self.graph, spot.point).len()
        })
    }

    // The declared end at point 0, and elsewhere what the edge says.
    #[tactic(auto, using(books::proofs::Rows::asked_inside, books::proofs::Rows::asked_past))]
    fn alternative(&self, unknown: usize, number: usize) -> Result<Choice, Refusal> {
        let spot = spot_of(self.graph, unknown / 2)?;
        if unknown % 2 == 0 {
            upper_at(self.graph, spot, number)
        } else {
            lower_at(self.graph, spot, number)
        }
    }
}
