//! A second solver, which iterates from below: every value starts at the lowest, and all rules are applied in turn until none raises anything.
//! It solves books of equations, which it reads through their trait, and scripts, by intervals and edges of its own. It shares no evaluation with the solver that it is held against.
#![tactic(auto)]

mod equations;
mod extended;
mod interval;
mod iteration;
mod results;
mod script;

pub use equations::{Readable, solve_book};
pub use extended::Extended;
pub use interval::Interval;
pub use iteration::{Rules, iterate};
pub use results::{AbstractValue, IndexFinding, Results};
pub use script::{Analysis, analyze};
