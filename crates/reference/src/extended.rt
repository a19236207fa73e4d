// Extended whole numbers, the one kind of value of the reference solver.
ghost use Rattle.std.specs.Prelude.{Some};
ghost use Rattle.reference.specs.Intervals.{extended_text};

use std::fmt;

/// A whole number, or below or above all of them, in this order. Grades are the numbers 1 to 3, and what nothing reaches lies below.
#[derive(Clone, Copy, PartialEq, Eq, PartialOrd, Ord, Debug)]
pub enum Extended {
    NegInf,
    Number(i64),
    PosInf,
}

impl Extended {
    /// The sum with a number. The infinities stay, and a sum that does not fit 64 bits is the nearest that does.
    pub fn plus(self, number: i64) -> Extended {
        match self {
            Extended::Number(own) => Extended::Number(own.saturating_add(number)),
            Extended::NegInf | Extended::PosInf => self,
        }
    }

    /// The value on the other side of zero.
    pub fn negated(self) -> Extended {
        match self {
            Extended::NegInf => Extended::PosInf,
            Extended::Number(own) => Extended::Number(own.saturating_neg()),
            Extended::PosInf => Extended::NegInf,
        }
    }

    /// The value, or above all numbers where it is a number over a cap.
    pub fn capped(self, cap: i64) -> Extended {
        match self {
            Extended::Number(own) if own > cap => Extended::PosInf,
            _ => self,
        }
    }
}

impl fmt::Display for Extended {
    ghost output = { λ x. Some (extended_text x) };

    fn fmt<W: fmt::Write>(&self, f: &mut fmt::Formatter<W>) -> fmt::Result {
        match *self {
            Extended::NegInf => f.write_str("-inf"),
            Extended::Number(number) => write!(f, "{number}"),
            Extended::PosInf => f.write_str("+inf"),
        }
    }
}
