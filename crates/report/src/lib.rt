// The report of a script: both analyses, run with a budget, and what they say, as text in a lent buffer.
#![tactic(auto)]

mod gathering;
mod lines;
mod writers;
mod writing;

pub use writing::{Report, report_text, write_report};
