// Books of equations: tests, terms and alternatives, what a book is asked, and what its parts are worth at given values.
#![tactic(auto)]

ghost use Rattle.std.specs.Prelude.{◌≡◌, List, length};
ghost use Rattle.books.specs.declared.Alternative.{Alternative};
ghost use Rattle.books.specs.Forms.{Well, constant as constant_of, shifted as shifted_of};
ghost use Rattle.books.specs.Questions.{counted, alternative as alternative_of};

use base::Refusal;
use kinds::Kind;

mod evaluation;

pub use evaluation::{
    RightSide, alternative_value, right_side, rises, smaller_term, term_value, test_holds, value_at,
};

// One side of an alternative: a constant, or an unknown shifted by a weight.
#[derive(Clone, Copy, PartialEq, Eq, Debug)]
pub enum Term<V, W> {
    Constant(V),
    Shifted(usize, W),
}

// The terms of an alternative, of which the smaller counts.
#[derive(Clone, Copy, PartialEq, Eq, Debug)]
pub enum Terms<V, W> {
    One(Term<V, W>),
    Two(Term<V, W>, Term<V, W>),
}

// What must hold for an alternative to count: nothing; an unknown is at least a threshold; two unknowns pass the joint test of the kind.
#[derive(Clone, Copy, PartialEq, Eq, Debug)]
pub enum Test<V> {
    Always,
    Single(usize, V),
    Joint(usize, usize, V),
}

// One of the values of which a right side is the largest.
#[derive(Clone, Copy, PartialEq, Eq, Debug)]
pub struct Alternative<V, W> {
    pub test: Test<V>,
    pub terms: Terms<V, W>,
}

impl<V: Copy, W: Copy> Alternative<V, W> {
    // The alternative that is always this constant.
    pub fn constant(value: V) -> Alternative<V, W>
        ensures { result ≡ constant_of value }
    {
        Alternative {
            test: Test::Always,
            terms: Terms::One(Term::Constant(value)),
        }
    }

    // The alternative that is always this unknown, shifted.
    pub fn shifted(unknown: usize, weight: W) -> Alternative<V, W>
        ensures { result ≡ shifted_of unknown weight }
    {
        Alternative {
            test: Test::Always,
            terms: Terms::One(Term::Shifted(unknown, weight)),
        }
    }
}

// What an analysis keeps of an unknown: its value, and the alternative that it chose, if any.
#[derive(Clone, Copy, PartialEq, Eq, Debug)]
pub struct Entry<V> {
    pub value: V,
    pub choice: Option<usize>,
}

// A book of equations. It answers by its equations, or refuses what is not there, and changes nothing.
pub trait Book<K: Kind> {
    // for each unknown, its alternatives
    ghost equations: { Self → List (List (Alternative K K.Weight)) };

    // How many unknowns there are.
    fn count(&self) -> usize
        ensures { result ≡ length (equations self.now) };

    // How many alternatives an unknown has.
    fn alternatives(&self, unknown: usize) -> Result<usize, Refusal>
        ensures { result ≡ counted (equations self.now) unknown };

    // An alternative of an unknown.
    fn alternative(
        &self,
        unknown: usize,
        number: usize,
    ) -> Result<Alternative<K, K::Weight>, Refusal>
        ensures { result ≡ alternative_of (equations self.now) unknown number };

    ghost well: { (b : Self) → Well K.Kind.ops (equations b) };
}
