// Runs of a script, and why no run leaves the intervals of its settled bounds or reads outside a table without a finding. Definitions and theorems, and the type of a finding.
#![tactic(auto)]

use base::Place;
use kinds::Bound;

// A table read that may fall outside: the point before it, where its index name stands, the index variable, the lowest and the highest value of the index at that point, and the size of the table.
#[derive(Clone, Copy, PartialEq, Eq, Debug)]
pub struct Finding {
    pub point: usize,
    pub place: Place,
    pub variable: usize,
    pub lowest: Bound,
    pub highest: Bound,
    pub size: u32,
}
