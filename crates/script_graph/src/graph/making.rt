// The graph of what was read.
ghost use Rattle.std.specs.Prelude.{◌≡◌, ◌<◌, All, vec_len, MatchResult};
ghost use Rattle.base.specs.Reasons.{no_memory};
ghost use Rattle.language_theory.specs.Graphs.{finished};
ghost use Rattle.script_graph.specs.Grouping.{OfScript, ByTarget};
ghost use Rattle.script_graph.specs.Meaning.{meaning};
ghost use Rattle.parser.specs.Models.{vars_of, tabs_of, drawn_so};

use crate::graph::Graph;
use base::Refusal;
use language_theory::Edge;
use parser::{Drawing, Names};
use std::alloc::Global;

// The edges by the points that they lead to.
fn group(heap: Global, edges: &[Edge], points: usize) -> Result<Vec<Vec<Edge>>, Refusal>
    requires { All (λ e. e.target < points) edges.now }
    ensures { MatchResult result (λ v. (vec_len v ≡ points) × ByTarget edges.now v.items) (λ e. e ≡ no_memory) }
{
    let mut incoming = Vec::new(heap);
    incoming.resize_with(points, || Vec::new(heap))?;
    for edge in edges {
        incoming[edge.target].push(*edge)?;
    }
    Ok(incoming)
}

// The graph of names and a drawing that are those of a script.
pub(crate) fn finish(heap: Global, names: Names, drawing: Drawing) -> Result<Graph, Refusal>
    requires { OfScript (finished (vars_of names) (tabs_of names) (drawn_so drawing)) }
    ensures { MatchResult result (λ g. meaning g ≡ finished (vars_of names) (tabs_of names) (drawn_so drawing)) (λ e. e ≡ no_memory) }
{
    let incoming = group(heap, &drawing.edges, drawing.points)?;
    Ok(Graph {
        variables: names.variables,
        tables: names.tables,
        points: drawing.points,
        edges: drawing.edges,
        lookups: drawing.lookups,
        incoming,
    })
}
