// Kinds of value: what an analysis computes with, by its operations and their laws; bounds and grades.
#![tactic(auto)]

ghost use Rattle.std.specs.Prelude.{◌≡◌};
ghost use Rattle.kinds.specs.Kinds.{Ops, Laws, Made, Sum};
ghost use Rattle.kinds.specs.Limits.{most_items};

mod bound;
mod grade;

pub use bound::Bound;
pub use grade::{Grade, NoWeight};

// A kind of value. Its functions take any operands. They answer by the meaning wherever these are sums of up to `most_items` constants, weights and thresholds of allowed size.
// That is a premise, not an invariant of a type: operands come from any book, and no test tells of how many items a value is made.
pub trait Kind: Copy {
    // what a value is shifted by
    type Weight: Copy;

    ghost ops: { Ops Self Self.Weight };

    // The value below all others.
    fn least() -> Self
        ensures { result ≡ ops.least };

    // The value above all others.
    fn greatest() -> Self
        ensures { result ≡ ops.greatest };

    // Whether it may be a constant or a threshold.
    fn is_sized(self) -> bool
        ensures { result ≡ ops.sized self };

    // Whether a weight may stand in a term.
    fn is_light(weight: Self::Weight) -> bool
        ensures { result ≡ ops.light weight };

    // Whether it lies at or below the other.
    fn at_most(self, other: Self) -> bool
        ensures { Made ops most_items self → Made ops most_items other → result ≡ ops.at_most self other };

    // The value moved by a weight.
    fn shift(self, weight: Self::Weight) -> Self
        ensures { Made ops most_items self → Sum ops most_items weight → result ≡ ops.shift self weight };

    // The joint test of two values against a threshold.
    fn joint(self, other: Self, threshold: Self) -> bool
        ensures { Made ops most_items self → Made ops most_items other → Made ops most_items threshold → result ≡ ops.joint self other threshold };

    // The weight that moves nothing.
    fn no_weight() -> Self::Weight
        ensures { result ≡ ops.zero };

    // The sum of two weights.
    fn add(weight: Self::Weight, other: Self::Weight) -> Self::Weight
        ensures { Sum ops most_items weight → Sum ops most_items other → result ≡ ops.plus weight other };

    // Whether a weight is at most the other.
    fn is_lighter(weight: Self::Weight, other: Self::Weight) -> bool
        ensures { Sum ops most_items weight → Sum ops most_items other → result ≡ ops.lighter weight other };

    ghost laws: { Laws ops };
}
