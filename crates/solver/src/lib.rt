// The solver: strategy improvement over any book of equations, for every kind of value.
#![tactic(auto)]

mod analysis;
mod calls;
mod choosing;
mod paths;
mod rounds;

pub use analysis::{Analysis, MOST_ROUNDS};
pub use calls::{Answer, Call, make_calls};
pub use rounds::Progress;
