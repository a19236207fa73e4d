// Books of equations as rules. Nothing of how the books evaluate their parts is used here.
ghost use Rattle.std.specs.Prelude.{◌≡◌};
ghost use Rattle.reference.specs.Readings.{bound_reading, grade_reading};
ghost use Rattle.reference.specs.declared.extended.Extended.{Extended};

use crate::extended::Extended;
use crate::iteration::{Rules, iterate, raise, value_at};
use base::Refusal;
use books::{Alternative, Book, Term, Terms, Test};
use kinds::{Bound, Grade, Kind, NoWeight};
use std::alloc::Global;

/// A kind that can be read as extended numbers: its values, its weights and its joint test.
pub trait Readable: Kind {
    ghost reading: { Self → Extended };

    /// The value.
    fn extended(self) -> Extended
        ensures { result ≡ reading self };

    /// How far a weight moves a number.
    fn distance(weight: Self::Weight) -> i64;

    /// Whether two values pass the joint test.
    fn joint_holds(first: Extended, second: Extended, threshold: Extended) -> bool;
}

impl Readable for Bound {
    ghost reading = { bound_reading };

    fn extended(self) -> Extended {
        match self {
            Bound::Least => Extended::NegInf,
            Bound::Whole(number) => Extended::Number(number),
            Bound::Greatest => Extended::PosInf,
        }
    }

    fn distance(weight: i64) -> i64 {
        weight
    }

    // Whether the sum reaches the threshold. Minus infinity absorbs everything, and reaches nothing.
    fn joint_holds(first: Extended, second: Extended, threshold: Extended) -> bool {
        match (first, second) {
            (Extended::NegInf, _) | (_, Extended::NegInf) => false,
            (Extended::Number(number), _) => threshold <= second.plus(number),
            (Extended::PosInf, _) => true,
        }
    }
}

impl Readable for Grade {
    ghost reading = { grade_reading };

    fn extended(self) -> Extended {
        match self {
            Grade::Unreached => Extended::NegInf,
            Grade::Written => Extended::Number(1),
            Grade::Sensed => Extended::Number(2),
            Grade::Heard => Extended::Number(3),
        }
    }

    fn distance(_weight: NoWeight) -> i64 {
        0
    }

    // Whether both are reached, and reach the threshold.
    fn joint_holds(first: Extended, second: Extended, threshold: Extended) -> bool {
        let lower = first.min(second);
        Extended::NegInf < lower && threshold <= lower
    }
}

// One alternative, with the unknown that is at least its value.
#[derive(Clone, Copy)]
struct Equation<K, W> {
    unknown: usize,
    alternative: Alternative<K, W>,
}

// All alternatives of a book, with the largest number that its least solution may have.
#[derive(Drop)]
struct Equations<K, W> {
    all: Vec<Equation<K, W>>,
    cap: i64,
}

impl<K: Readable> Rules for Equations<K, K::Weight> {
    fn apply(&self, values: &mut [Extended]) -> bool {
        let mut rose = false;
        for equation in &self.all {
            let value = alternative_value(equation.alternative, values).capped(self.cap);
            rose |= raise(values, equation.unknown, value);
        }
        rose
    }
}

fn test_holds<K: Readable>(test: Test<K>, values: &[Extended]) -> bool {
    match test {
        Test::Always => true,
        Test::Single(unknown, threshold) => threshold.extended() <= value_at(values, unknown),
        Test::Joint(unknown, other, threshold) => K::joint_holds(
            value_at(values, unknown),
            value_at(values, other),
            threshold.extended(),
        ),
    }
}

fn term_value<K: Readable>(term: Term<K, K::Weight>, values: &[Extended]) -> Extended {
    match term {
        Term::Constant(value) => value.extended(),
        Term::Shifted(unknown, weight) => value_at(values, unknown).plus(K::distance(weight)),
    }
}

fn alternative_value<K: Readable>(
    alternative: Alternative<K, K::Weight>,
    values: &[Extended],
) -> Extended {
    if !test_holds(alternative.test, values) {
        return Extended::NegInf;
    }
    match alternative.terms {
        Terms::One(term) => term_value(term, values),
        Terms::Two(term, other) => term_value(term, values).min(term_value(other, values)),
    }
}

fn add_equations<K: Readable, B: Book<K>>(
    all: &mut Vec<Equation<K, K::Weight>>,
    book: &B,
    unknown: usize,
) -> Result<(), Refusal> {
    // By number: a book answers for one alternative at a time.
    for number in 0..book.alternatives(unknown)? {
        let alternative = book.alternative(unknown, number)?;
        all.push(Equation {
            unknown,
            alternative,
        })?;
    }
    Ok(())
}

/// The least solution of a book, a value for each unknown, or `None` where the iteration comes to no end.
/// A number above the cap becomes plus infinity: none in the least solution may be larger.
pub fn solve_book<K: Readable, B: Book<K>>(
    alloc: Global,
    book: &B,
    cap: i64,
) -> Result<Option<Vec<Extended>>, Refusal> {
    let mut all = Vec::new(alloc);
    // By number: a book answers for one unknown at a time.
    for unknown in 0..book.count() {
        add_equations(&mut all, book, unknown)?;
    }
    let mut values = vec![in alloc; Extended::NegInf; book.count()]?;
    let settled = iterate(&Equations { all, cap }, values.as_mut_slice());
    Ok(settled.then_some(values))
}
