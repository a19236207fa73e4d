// Grades: where a value comes from, if anything reaches it.
ghost use Rattle.std.specs.Prelude.{◌≡◌, Some};
ghost use Rattle.kinds.specs.Values.{grades, rank_of};
ghost use Rattle.kinds.specs.Laws.{grades_laws};
ghost use Rattle.kinds.specs.Texts.{grade_text};

use crate::Kind;
use std::fmt;

// Reached by nothing, or written in a script, sensed by the station, or heard over the air; from the lowest to the highest.
#[derive(Clone, Copy, PartialEq, Eq, PartialOrd, Ord, Debug)]
pub enum Grade {
    Unreached,
    Written,
    Sensed,
    Heard,
}

// The only weight of grades: they do not shift.
#[derive(Clone, Copy, PartialEq, Eq, Debug)]
pub enum NoWeight {
    Zero,
}

impl Grade {
    // The place of the grade in their order, from 0.
    pub fn rank(self) -> u8
        ensures { result ≡ rank_of self }
    {
        self as u8
    }
}

impl Kind for Grade {
    type Weight = NoWeight;

    ghost ops = { grades };

    ghost laws = { grades_laws };

    // The grade of what nothing reaches.
    fn least() -> Grade {
        Grade::Unreached
    }

    // The grade of what is heard.
    fn greatest() -> Grade {
        Grade::Heard
    }

    // Every grade may be a constant.
    fn is_sized(self) -> bool {
        true
    }

    // The one weight may stand anywhere.
    fn is_light(_weight: NoWeight) -> bool {
        true
    }

    // The order of ranks.
    fn at_most(self, other: Grade) -> bool {
        self <= other
    }

    // Grades do not shift.
    fn shift(self, _weight: NoWeight) -> Grade {
        self
    }

    // Whether both are reached and at least the threshold.
    fn joint(self, other: Grade, threshold: Grade) -> bool {
        let lower = self.min(other);
        Grade::Written <= lower && threshold <= lower
    }

    // The one weight.
    fn no_weight() -> NoWeight {
        NoWeight::Zero
    }

    // The one weight.
    fn add(_weight: NoWeight, _other: NoWeight) -> NoWeight {
        NoWeight::Zero
    }

    // The one weight is as light as itself.
    fn is_lighter(_weight: NoWeight, _other: NoWeight) -> bool {
        true
    }
}

impl fmt::Display for Grade {
    ghost output = { λ x. Some (grade_text x) };

    fn fmt<W: fmt::Write>(&self, f: &mut fmt::Formatter<W>) -> fmt::Result {
        write!(f, "grade {}", self.rank())
    }
}
