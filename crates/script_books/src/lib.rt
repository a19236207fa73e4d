// The two books of a script's graph: its bound book and its grade book. Each is a view of the graph, and computes an alternative when it is asked for it.
#![tactic(auto)]

mod bounds;
mod ends;
mod grades;
mod spots;
mod start;

pub use bounds::BoundBook;
pub use grades::GradeBook;
