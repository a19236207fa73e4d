// Intervals of whole numbers: the values of a variable, in abstract.
ghost use Rattle.std.specs.Prelude.{◌≡◌};
ghost use Rattle.reference.specs.Intervals.{contains};

use crate::extended::Extended;
use language_theory::Range;
use std::fmt;

/// The whole numbers from the lowest to the highest. Empty where the lowest lies above the highest.
#[derive(Clone, Copy, PartialEq, Eq, Debug)]
pub struct Interval {
    pub low: Extended,
    pub high: Extended,
}

impl Interval {
    pub const EMPTY: Interval = Interval {
        low: Extended::PosInf,
        high: Extended::NegInf,
    };

    pub const ALL: Interval = Interval {
        low: Extended::NegInf,
        high: Extended::PosInf,
    };

    pub fn up_to(limit: Extended) -> Interval {
        Interval {
            high: limit,
            ..Interval::ALL
        }
    }

    pub fn from_on(limit: Extended) -> Interval {
        Interval {
            low: limit,
            ..Interval::ALL
        }
    }

    pub fn is_empty(self) -> bool {
        self.low > self.high
    }

    /// Whether it has a lowest and a highest number.
    pub fn is_bounded(self) -> bool {
        matches!(
            (self.low, self.high),
            (Extended::Number(_), Extended::Number(_))
        )
    }

    pub fn contains(self, number: i64) -> bool
        ensures { result ≡ contains self number }
    {
        self.low <= Extended::Number(number) && Extended::Number(number) <= self.high
    }

    /// Whether it lies in 0..size-1, the indices of a table.
    pub fn fits_table(self, size: u32) -> bool {
        Extended::Number(0) <= self.low && self.high < Extended::Number(i64::from(size))
    }

    /// The numbers of both.
    pub fn meet(self, other: Interval) -> Interval {
        Interval {
            low: self.low.max(other.low),
            high: self.high.min(other.high),
        }
    }

    /// All numbers with a constant added.
    pub fn plus(self, constant: i64) -> Interval {
        Interval {
            low: self.low.plus(constant),
            high: self.high.plus(constant),
        }
    }

    /// All numbers on the other side of zero.
    pub fn negated(self) -> Interval {
        Interval {
            low: self.high.negated(),
            high: self.low.negated(),
        }
    }
}

impl From<Range> for Interval {
    fn from(range: Range) -> Interval {
        Interval {
            low: Extended::Number(range.low),
            high: Extended::Number(range.high),
        }
    }
}

impl fmt::Display for Interval {
    fn fmt<W: fmt::Write>(&self, f: &mut fmt::Formatter<W>) -> fmt::Result {
        write!(f, "{}..{}", self.low, self.high)
    }
}
