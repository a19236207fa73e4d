// What a drawn number makes of a kind of value: constants, thresholds and weights.
ghost use Rattle.std.specs.Prelude.{◌≡◌};
ghost use Rattle.book_trials.specs.Makers.{Maker, bound_maker, grade_maker, whole_from};
ghost use Rattle.book_trials.specs.WellFormed.{Sound, bounds_sound, grades_sound};

use kinds::{Bound, Grade, NoWeight};
use reference::Readable;

/// What a kind and its values are called.
#[derive(Clone, Copy)]
pub struct Names {
    pub kind: &'static str,
    pub lowest: &'static str,
    pub between: &'static str,
    pub highest: &'static str,
}

/// A kind whose values can be drawn.
pub trait Drawn: Readable {
    const NAMES: Names;

    ghost maker: { Maker Self Self.Weight };

    /// The constant of a drawn number.
    fn constant(number: u64) -> Self
        ensures { result ≡ maker.constant number };

    /// The threshold of a drawn number.
    fn threshold(number: u64) -> Self
        ensures { result ≡ maker.threshold number };

    /// The weight of a drawn number.
    fn weight(number: u64) -> Self::Weight
        ensures { result ≡ maker.weight number };

    // each may stand in a book
    ghost sound: { Sound Self.Kind.ops maker };
}

// A whole number from -20 to 20.
fn whole(number: u64) -> i64
    ensures { result ≡ whole_from number }
{
    // `as`: a remainder fits, and no `From` leads from `u64` to `i64`.
    (number % 41) as i64 - 20
}

impl Drawn for Bound {
    const NAMES: Names = Names {
        kind: "bounds",
        lowest: "-inf",
        between: "whole",
        highest: "+inf",
    };

    ghost maker = { bound_maker };

    ghost sound = { bounds_sound };

    // One in fifty is plus infinity, the others are as thresholds.
    fn constant(number: u64) -> Bound {
        if number % 50 == 0 {
            Bound::Greatest
        } else {
            Bound::threshold(number)
        }
    }

    // From -20 to 20.
    fn threshold(number: u64) -> Bound {
        Bound::Whole(whole(number))
    }

    // From -3 to 3.
    fn weight(number: u64) -> i64 {
        // `as`: a remainder fits, as in `whole`.
        (number % 7) as i64 - 3
    }
}

impl Drawn for Grade {
    const NAMES: Names = Names {
        kind: "grades",
        lowest: "unreached",
        between: "written or sensed",
        highest: "heard",
    };

    ghost maker = { grade_maker };

    ghost sound = { grades_sound };

    // Any grade that is reached.
    fn constant(number: u64) -> Grade {
        match number % 3 {
            0 => Grade::Written,
            1 => Grade::Sensed,
            _ => Grade::Heard,
        }
    }

    // Any grade that is reached, as for a constant.
    fn threshold(number: u64) -> Grade {
        Grade::constant(number)
    }

    // The one weight.
    fn weight(_number: u64) -> NoWeight {
        NoWeight::Zero
    }
}
