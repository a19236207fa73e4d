// The script language: what a script is, which texts are refused and where, and the graph of points and edges
// that a script means. This crate has the types of a graph's parts; the rest of it is definitions and their laws.
#![tactic(auto)]

use base::Place;

/// The whole numbers from `low` to `high`.
#[derive(Clone, Copy, PartialEq, Eq, Debug)]
pub struct Range {
    pub low: i64,
    pub high: i64,
}

/// Where a value comes from: written in the script, sensed by the station, or heard over the air.
/// Not the grades of the solver: there is no source for what nothing reaches, and sources have no order.
#[derive(Clone, Copy, PartialEq, Eq, Debug)]
pub enum Source {
    Written,
    Sensed,
    Heard,
}

/// What an assignment sets its target to. Variables are given by their numbers.
#[derive(Clone, Copy, PartialEq, Eq, Debug)]
pub enum Value {
    /// Any number of the range; a constant is a range of one number, from `Source::Written`.
    AnyOf { range: Range, source: Source },
    /// The entry at the variable `index` of a table whose range this is: the last edge of `k := t[i]`.
    TableEntry { index: usize, range: Range },
    /// The variable plus the constant.
    Sum { variable: usize, constant: i64 },
    /// The variable, negated.
    Negation { variable: usize },
}

/// What has to hold of the values for an edge to be taken. Variables are given by their numbers.
#[derive(Clone, Copy, PartialEq, Eq, Debug)]
pub enum Guard {
    /// `variable <= limit`
    AtMost {
        variable: usize,
        limit: i64,
    },
    /// `variable >= limit`
    AtLeast {
        variable: usize,
        limit: i64,
    },
    /// `left <= right + distance`
    Difference {
        left: usize,
        right: usize,
        distance: i64,
    },
}

/// What an edge does.
#[derive(Clone, Copy, PartialEq, Eq, Debug)]
pub enum Action {
    /// Nothing.
    Skip,
    /// Sets the variable `target`.
    Assign { target: usize, value: Value },
    /// Lets through where the guard holds, and changes nothing.
    Assume { guard: Guard },
}

/// An edge from a point to a point, with the place of the first word of the statement that made it.
#[derive(Clone, Copy, PartialEq, Eq, Debug)]
pub struct Edge {
    pub source: usize,
    pub target: usize,
    pub action: Action,
    pub place: Place,
}

/// A table read: the point before it, its index variable, its table, and where the index name stands.
#[derive(Clone, Copy, PartialEq, Eq, Debug)]
pub struct Lookup {
    pub point: usize,
    pub index: usize,
    pub table: usize,
    pub place: Place,
}
