// What is drawn so far: points are numbered as made, edges and table reads stand in the order made.
ghost use Rattle.std.specs.Prelude.{◌+◌, ◌≤◌, vec_len};

use language_theory::{Edge, Lookup};

mod figures;
mod strokes;

// The count of points, the point where the next statement stands, edges and table reads.
#[derive(Drop)]
pub struct Drawing {
    pub points: usize,
    pub here: usize,
    pub edges: Vec<Edge>,
    pub lookups: Vec<Lookup>,
    ghost few: { points ≤ vec_len edges + 1 },
}
