// Depths: a kind of value whose weights lower what lies below zero and raise nothing, and a book over it.
// They keep the laws of a kind and have little else in common with bounds and grades.
ghost use Rattle.std.specs.Prelude.{◌≡◌};
ghost use Rattle.examples.specs.Systems.{ComesTo};
ghost use Rattle.examples.specs.Descending.{depths, lowered_whole, Deep, Long, descending_depths, resting_depths};
ghost use Rattle.examples.specs.DepthLaws.{depths_laws, depths_rest};

use base::{Reason, Refusal};
use books::{Alternative, Book, Term, Terms, Test};
use kinds::Kind;
use std::fmt;

/// A whole number, or minus infinity, or plus infinity, from the lowest to the highest.
/// A type of its own, since `Bound` is a kind already: this one has the same values and other weights.
#[derive(Clone, Copy, PartialEq, Eq, PartialOrd, Ord, Debug)]
pub enum Depth {
    Least,
    Whole(i64),
    Greatest,
}

/// A system over depths: u0 = max(-5, u1 lowered once), u1 = max(u0 lowered once, -2 if u0 >= -5).
#[derive(Clone, Copy, PartialEq, Eq, Debug)]
pub struct DescendingBook;

// The rounds that the system over depths takes.
const DESCENDING_ROUNDS: u16 = 3;

// The largest size of a constant or a threshold.
const MOST_DEPTH: u64 = 1000;

// A number lowered by a weight, exact where both are sums of allowed length.
fn lower(a: i64, weight: u64) -> i64
    ensures { Deep a → Long weight → result ≡ lowered_whole a weight }
{
    if a < 0 {
        a.saturating_sub_unsigned(weight)
    } else {
        a
    }
}

impl Kind for Depth {
    type Weight = u64;

    ghost ops = { depths };

    ghost laws = { depths_laws };

    // Minus infinity.
    fn least() -> Depth {
        Depth::Least
    }

    // Plus infinity.
    fn greatest() -> Depth {
        Depth::Greatest
    }

    // Infinities have no size.
    fn is_sized(self) -> bool {
        match self {
            Depth::Whole(a) => a.unsigned_abs() <= MOST_DEPTH,
            Depth::Least | Depth::Greatest => true,
        }
    }

    // A term is lowered once at most.
    fn is_light(weight: u64) -> bool {
        weight <= 1
    }

    // The order of numbers, between the infinities.
    fn at_most(self, other: Depth) -> bool {
        self <= other
    }

    // Numbers below zero go down, all else stays where it is.
    #[tactic(auto, using(crate::proofs::DepthSizes::made_deep, crate::proofs::DepthSizes::sum_long))]
    fn shift(self, weight: u64) -> Depth {
        match self {
            Depth::Whole(a) => Depth::Whole(lower(a, weight)),
            Depth::Least | Depth::Greatest => self,
        }
    }

    // Whether both are more than minus infinity, and the greater is at least the threshold.
    fn joint(self, other: Depth, threshold: Depth) -> bool {
        let proper = Depth::Least < self && Depth::Least < other;
        proper && (threshold <= self || threshold <= other)
    }

    // Not to be lowered.
    fn no_weight() -> u64 {
        0
    }

    // To be lowered by both.
    #[tactic(auto, using(crate::proofs::DepthSizes::sum_long))]
    fn add(weight: u64, other: u64) -> u64 {
        weight.saturating_add(other)
    }

    // The more a value is lowered, the less the weight.
    fn is_lighter(weight: u64, other: u64) -> bool {
        other <= weight
    }
}

impl fmt::Display for Depth {
    fn fmt<W: fmt::Write>(&self, f: &mut fmt::Formatter<W>) -> fmt::Result {
        match *self {
            Depth::Least => f.write_str("-inf"),
            Depth::Whole(number) => write!(f, "{number}"),
            Depth::Greatest => f.write_str("+inf"),
        }
    }
}

impl DescendingBook {
    /// The counted rounds from set-up to rest.
    #[tactic(auto, using(crate::specs::DepthLaws::depths_rest))]
    pub fn rounds(self) -> u16
        ensures { ComesTo depths descending_depths result resting_depths }
    {
        DESCENDING_ROUNDS
    }
}

impl Book<Depth> for DescendingBook {
    ghost equations = { λ _. descending_depths };

    ghost well = { λ b. depths_rest.well };

    // Two unknowns.
    fn count(&self) -> usize {
        2
    }

    // Each unknown has a constant besides what is lowered.
    fn alternatives(&self, unknown: usize) -> Result<usize, Refusal> {
        match unknown {
            0 | 1 => Ok(2),
            _ => Err(Reason::NotThere.into()),
        }
    }

    // The alternatives as the system is written.
    fn alternative(
        &self,
        unknown: usize,
        number: usize,
    ) -> Result<Alternative<Depth, u64>, Refusal> {
        match (unknown, number) {
            (0, 0) => Ok(Alternative::constant(Depth::Whole(-5))),
            (0, 1) => Ok(Alternative::shifted(1, 1)),
            (1, 0) => Ok(Alternative::shifted(0, 1)),
            (1, 1) => Ok(Alternative {
                test: Test::Single(0, Depth::Whole(-5)),
                terms: Terms::One(Term::Constant(Depth::Whole(-2))),
            }),
            _ => Err(Reason::NotThere.into()),
        }
    }
}
