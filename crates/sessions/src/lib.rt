// Sessions: an analysis together with its book, which knows whether it is settled, and what a settled one tells of a script.
#![tactic(auto)]

mod calls;
mod findings;
mod grades;
mod intervals;
mod session;

pub use calls::{ScriptAnswer, ScriptCall, make_script_calls};
pub use session::Session;
