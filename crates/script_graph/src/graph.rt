// The graph of a script: variables and tables in the order declared, points, edges and table reads in the order made.
ghost use Rattle.std.specs.Prelude.{◌≡◌, ◌≤◌, vec_len};
ghost use Rattle.script_graph.specs.Grouping.{graph_of, OfScript, ByTarget};

use language_theory::{Edge, Lookup};
use parser::{Table, Variable};

mod making;
mod questions;

pub(crate) use making::finish;

#[derive(Drop)]
pub struct Graph {
    variables: Vec<Variable>,
    tables: Vec<Table>,
    points: usize,
    edges: Vec<Edge>,
    lookups: Vec<Lookup>,
    // for each point the edges to it, in the order made; `points` beside it, since the facts below speak of a number and not of this list
    incoming: Vec<Vec<Edge>>,
    ghost few_points: { points ≤ 96 },
    ghost few_variables: { vec_len variables ≤ 8 },
    ghost for_each_point: { vec_len incoming ≡ points },
    ghost by_target: { ByTarget edges.items incoming.items },
    ghost drawn: { ∥ OfScript (graph_of variables.items tables.items points edges.items lookups.items) ∥₁ },
}
