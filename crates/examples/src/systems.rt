// Small systems of equations over bounds and over grades, with the rounds that they take to rest.
ghost use Rattle.kinds.specs.Values.{bounds, grades};
ghost use Rattle.examples.specs.Systems.{system_equations, rest_of, copying_grades, resting_grades, ComesTo, SystemsStand, BoundedLives};
ghost use Rattle.examples.specs.Resting.{rests_after, grades_rest};
ghost use Rattle.std.specs.Prelude.{refl};

use base::{Reason, Refusal};
use books::{Alternative, Book, Term, Terms, Test};
use kinds::{Bound, Grade, NoWeight};

/// Systems over bounds.
#[derive(Clone, Copy, PartialEq, Eq, Debug)]
pub enum System {
    /// no unknowns
    Nothing,
    /// u0 = max(0, u1), u1 = u0
    Copying,
    /// u0 = max(0, min(u0 + 1, 9))
    Capped,
    /// u0 = max(0, u0 + 1)
    Growing,
    /// u0 = u0 + 1
    Groundless,
    /// u0 = max(0, u0 - 1)
    Falling,
}

/// A system over grades: u0 = max(Written, u1), u1 = u0.
#[derive(Clone, Copy, PartialEq, Eq, Debug)]
pub struct CopiedGrade;

// The rounds that the system over grades takes.
const GRADE_ROUNDS: u16 = 2;

impl System {
    /// The counted rounds from set-up to rest.
    #[tactic(auto, using(crate::specs::Resting::rests_after, crate::specs::Resting::systems, crate::specs::Resting::bounded))]
    pub fn rounds(self) -> u16
        ensures rest { ComesTo bounds (system_equations self) result (rest_of self) }
        ensures collection { SystemsStand }
        ensures sizes { BoundedLives }
    {
        match self {
            System::Nothing | System::Groundless => 0,
            System::Falling => 1,
            System::Copying | System::Capped | System::Growing => 2,
        }
    }
}

impl Book<Bound> for System {
    ghost equations = { system_equations };

    ghost well = { λ t. (rests_after t refl).well };

    // Copying has two unknowns, the others one or none.
    fn count(&self) -> usize {
        match *self {
            System::Nothing => 0,
            System::Capped | System::Growing | System::Groundless | System::Falling => 1,
            System::Copying => 2,
        }
    }

    // Most unknowns have a ground and a way to rise.
    fn alternatives(&self, unknown: usize) -> Result<usize, Refusal> {
        match (*self, unknown) {
            (System::Copying | System::Capped | System::Growing | System::Falling, 0) => Ok(2),
            (System::Copying, 1) => Ok(1),
            (System::Groundless, 0) => Ok(1),
            _ => Err(Reason::NotThere.into()),
        }
    }

    // The alternatives as the systems are written.
    fn alternative(
        &self,
        unknown: usize,
        number: usize,
    ) -> Result<Alternative<Bound, i64>, Refusal> {
        match (*self, unknown, number) {
            (System::Copying | System::Capped | System::Growing | System::Falling, 0, 0) => Ok(
                Alternative::constant(Bound::Whole(0)),
            ),
            (System::Copying, 0, 1) => Ok(Alternative::shifted(1, 0)),
            (System::Copying, 1, 0) => Ok(Alternative::shifted(0, 0)),
            (System::Capped, 0, 1) => Ok(Alternative {
                test: Test::Always,
                terms: Terms::Two(Term::Shifted(0, 1), Term::Constant(Bound::Whole(9))),
            }),
            (System::Growing, 0, 1) => Ok(Alternative::shifted(0, 1)),
            (System::Groundless, 0, 0) => Ok(Alternative::shifted(0, 1)),
            (System::Falling, 0, 1) => Ok(Alternative::shifted(0, -1)),
            _ => Err(Reason::NotThere.into()),
        }
    }
}

impl CopiedGrade {
    /// The counted rounds from set-up to rest.
    #[tactic(auto, using(crate::specs::Resting::grades_rest, crate::specs::Resting::systems))]
    pub fn rounds(self) -> u16
        ensures rest { ComesTo grades copying_grades result resting_grades }
        ensures collection { SystemsStand }
    {
        GRADE_ROUNDS
    }
}

impl Book<Grade> for CopiedGrade {
    ghost equations = { λ _. copying_grades };

    ghost well = { λ b. grades_rest.well };

    // Two unknowns.
    fn count(&self) -> usize {
        2
    }

    // The first unknown has a constant besides the copy.
    fn alternatives(&self, unknown: usize) -> Result<usize, Refusal> {
        match unknown {
            0 => Ok(2),
            1 => Ok(1),
            _ => Err(Reason::NotThere.into()),
        }
    }

    // The alternatives as the system is written.
    fn alternative(
        &self,
        unknown: usize,
        number: usize,
    ) -> Result<Alternative<Grade, NoWeight>, Refusal> {
        match (unknown, number) {
            (0, 0) => Ok(Alternative::constant(Grade::Written)),
            (0, 1) => Ok(Alternative::shifted(1, NoWeight::Zero)),
            (1, 0) => Ok(Alternative::shifted(0, NoWeight::Zero)),
            _ => Err(Reason::NotThere.into()),
        }
    }
}
