// What a graph tells.
ghost use Rattle.std.specs.Prelude.{◌≡◌, ◌<◌, ◌≤◌, MatchOption};
ghost use Rattle.language_theory.specs.Graphs.{incoming as leading_to};

use crate::graph::Graph;
use language_theory::{Edge, Lookup};
use parser::{Table, Variable};

impl Graph {
    // How many points there are; they are numbered from 0.
    pub fn points(&self) -> usize
        ensures { result ≡ self.now.points }
    {
        self.points
    }

    // The variables, in the order declared.
    pub fn variables(&self) -> &[Variable]
        ensures { result.now ≡ self.now.variables.items }
    {
        &self.variables
    }

    // The tables, in the order declared.
    pub fn tables(&self) -> &[Table]
        ensures { result.now ≡ self.now.tables.items }
    {
        &self.tables
    }

    // The edges, in the order made.
    pub fn edges(&self) -> &[Edge]
        ensures { result.now ≡ self.now.edges.items }
    {
        &self.edges
    }

    // The table reads, in the order of the text.
    pub fn lookups(&self) -> &[Lookup]
        ensures { result.now ≡ self.now.lookups.items }
    {
        &self.lookups
    }

    /// The edges to a point, in the order made; `None` where there is no such point.
    pub fn incoming(&self, point: usize) -> Option<&[Edge]>
        ensures { MatchOption result (self.now.points ≤ point)
            (λ edges. (point < self.now.points) × (edges.now ≡ leading_to point self.now.edges.items)) }
    {
        self.incoming.get(point).map(|edges| edges.as_slice())
    }
}
