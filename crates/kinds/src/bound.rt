// Bounds: whole numbers between a least and a greatest value.
ghost use Rattle.std.specs.Prelude.{◌≡◌, ℕ, ◌+ℤ◌, Some};
ghost use Rattle.kinds.specs.Kinds.{Made};
ghost use Rattle.kinds.specs.Values.{bounds, added, reaches, small, Within, Near, SizedBy, whole_of};
ghost use Rattle.kinds.specs.Laws.{bounds_laws};
ghost use Rattle.kinds.specs.Texts.{bound_text};

use crate::Kind;
use std::fmt;

// A whole number, or minus infinity, or plus infinity, from the lowest to the highest.
#[derive(Clone, Copy, PartialEq, Eq, PartialOrd, Ord, Debug)]
pub enum Bound {
    Least,
    Whole(i64),
    Greatest,
}

// The largest size of a constant, a threshold or a weight.
const MOST_SIZE: u64 = 2147483648;

impl Bound {
    // The whole number, where the bound is one.
    pub fn whole(self) -> Option<i64>
        ensures value { result ≡ whole_of self }
        ensures size { (k : ℕ) → Made bounds k self → SizedBy k self }
    {
        match self {
            Bound::Whole(a) => Some(a),
            Bound::Least | Bound::Greatest => None,
        }
    }

    // The sum of two bounds: minus infinity absorbs everything, plus infinity all else.
    fn plus(self, other: Bound) -> Bound
        ensures { Near self → Near other → result ≡ added self other }
    {
        match (self, other) {
            (Bound::Least, _) | (_, Bound::Least) => Bound::Least,
            (Bound::Whole(a), Bound::Whole(b)) => Bound::Whole(sum(a, b)),
            _ => Bound::Greatest,
        }
    }

    // Whether a sum passes the joint test.
    fn reaches(self, threshold: Bound) -> bool
        ensures { result ≡ reaches self threshold }
    {
        Bound::Least < self && threshold <= self
    }
}

// Whether a number is small enough for a constant, a threshold or a weight.
fn is_small(a: i64) -> bool
    ensures { result ≡ small a }
{
    a.unsigned_abs() <= MOST_SIZE
}

// The sum of two numbers, exact where both are sums of allowed length.
fn sum(a: i64, b: i64) -> i64
    ensures { Within a → Within b → result ≡ a +ℤ b }
{
    a.saturating_add(b)
}

impl Kind for Bound {
    type Weight = i64;

    ghost ops = { bounds };

    ghost laws = { bounds_laws };

    // Minus infinity.
    fn least() -> Bound {
        Bound::Least
    }

    // Plus infinity.
    fn greatest() -> Bound {
        Bound::Greatest
    }

    // Infinities have no size.
    fn is_sized(self) -> bool {
        match self {
            Bound::Whole(a) => is_small(a),
            Bound::Least | Bound::Greatest => true,
        }
    }

    // Weights have the same limit as constants.
    fn is_light(weight: i64) -> bool {
        is_small(weight)
    }

    // The order of numbers, between the infinities.
    fn at_most(self, other: Bound) -> bool {
        self <= other
    }

    // Infinities stay where they are.
    fn shift(self, weight: i64) -> Bound {
        match self {
            Bound::Whole(a) => Bound::Whole(sum(a, weight)),
            Bound::Least | Bound::Greatest => self,
        }
    }

    // Whether the sum is at least the threshold, and more than minus infinity.
    fn joint(self, other: Bound, threshold: Bound) -> bool {
        self.plus(other).reaches(threshold)
    }

    // Zero.
    fn no_weight() -> i64 {
        0
    }

    // The sum of two numbers.
    fn add(weight: i64, other: i64) -> i64 {
        sum(weight, other)
    }

    // The order of numbers.
    fn is_lighter(weight: i64, other: i64) -> bool {
        weight <= other
    }
}

impl fmt::Display for Bound {
    ghost output = { λ x. Some (bound_text x) };

    fn fmt<W: fmt::Write>(&self, f: &mut fmt::Formatter<W>) -> fmt::Result {
        match *self {
            Bound::Least => f.write_str("-inf"),
            Bound::Whole(a) => write!(f, "{a}"),
            Bound::Greatest => f.write_str("+inf"),
        }
    }
}
