// A graph as text: the points and edges that were read.
#![tactic(auto)]

ghost use Rattle.std.specs.Prelude.{Some};
ghost use Rattle.listing.specs.Listings.{summary_text, listing_text};

mod edges;
pub mod parts;

use edges::EdgeLine;
use script_graph::graph::Graph;
use std::fmt;

/// How many points and edges were read, in one line.
#[derive(Drop)]
pub struct Summary<'a>(pub &'a Graph);

/// The summary, and a line for each edge in the order made.
#[derive(Drop)]
pub struct Listing<'a>(pub &'a Graph);

impl fmt::Display for Summary<'_> {
    ghost output = { λ x. Some (summary_text x.0.now) };

    fn fmt<W: fmt::Write>(&self, f: &mut fmt::Formatter<W>) -> fmt::Result {
        let points = self.0.points();
        let edges = self.0.edges().len();
        write!(f, "points {points} edges {edges}")
    }
}

impl fmt::Display for Listing<'_> {
    ghost output = { λ x. Some (listing_text x.0.now) };

    fn fmt<W: fmt::Write>(&self, f: &mut fmt::Formatter<W>) -> fmt::Result {
        let variables = self.0.variables();
        write!(f, "{}", Summary(self.0))?;
        for edge in self.0.edges() {
            write!(f, "\n{}", EdgeLine { variables, edge })?;
        }
        Ok(())
    }
}
