// What is known of a script.
ghost use Rattle.std.specs.Prelude.{◌≡◌};
ghost use Rattle.reference.specs.Results.{value_at};

use crate::extended::Extended;
use crate::interval::Interval;
use base::Place;
use std::fmt;

/// What is known of a variable at a point: its interval, empty where nothing reaches the point, and its grade.
#[derive(Clone, Copy, PartialEq, Eq, Debug)]
pub struct AbstractValue {
    pub interval: Interval,
    pub grade: Extended,
}

/// A table read whose index may fall outside, with the interval of the index before it.
#[derive(Clone, Copy, PartialEq, Eq, Debug)]
pub struct IndexFinding {
    pub point: usize,
    pub place: Place,
    pub variable: usize,
    pub interval: Interval,
    pub size: u32,
}

/// The values of all variables, point by point, and the findings in the order of the text.
#[derive(Drop)]
pub struct Results {
    pub variables: usize,
    pub values: Vec<AbstractValue>,
    pub findings: Vec<IndexFinding>,
}

impl AbstractValue {
    pub const UNREACHED: AbstractValue = AbstractValue {
        interval: Interval::EMPTY,
        grade: Extended::NegInf,
    };

    /// The same grade with another interval.
    pub(crate) fn with(self, interval: Interval) -> AbstractValue {
        AbstractValue { interval, ..self }
    }
}

impl Results {
    pub fn value(&self, point: usize, variable: usize) -> AbstractValue
        ensures { result ≡ value_at self.now point variable }
    {
        let pair = point.saturating_mul(self.variables);
        let value = self.values.get(pair.saturating_add(variable)).copied();
        value.unwrap_or(AbstractValue::UNREACHED)
    }
}

impl fmt::Display for IndexFinding {
    fn fmt<W: fmt::Write>(&self, f: &mut fmt::Formatter<W>) -> fmt::Result {
        let Place { line, column } = self.place;
        write!(f, "line {line} column {column}: ")?;
        write!(
            f,
            "an index in {} of a table of {}",
            self.interval, self.size
        )
    }
}
