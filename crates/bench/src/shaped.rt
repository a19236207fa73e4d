// Families of books of bounds, of any size within the limits. They hold no list: each answer is computed when asked.
ghost use Rattle.std.specs.Prelude.{◌≡◌, ◌-◌, ◌%◌, ◌<◌, ◌≤◌, ◌==◌, ◌&&◌, if◌then◌else◌, [], ◌∷◌, length, min, not, nat_lt, Some, None};
ghost use Rattle.kinds.specs.Limits.{most_unknowns};
ghost use Rattle.books.specs.Books.{nth};
ghost use Rattle.bench.specs.Shapes.{link as link_of, capped as capped_of, ring as ring_of, grid as grid_of, height as height_of, row, family_equations};
ghost use Rattle.bench.specs.Fitting.{fits};

use base::{Reason, Refusal};
use books::{Alternative, Book, Term, Terms, Test};
use kinds::Bound;

const MOST_UNKNOWNS: usize = 1536;

const COLUMNS: usize = 8;

/// A family of books.
#[derive(Clone, Copy)]
pub enum Shape {
    /// u0 = 0, u(k) = u(k-1) + 1
    Chain,
    /// the same with the unknowns in reverse order: u(n-1) = 0, u(k) = u(k+1) + 1
    Reverse,
    /// u0 = max(0, min(u(n-1) + 1, 1000000)), u(k) = u(k-1) + 1
    Ring,
    /// eight columns, row by row: the largest of min(u(r,c) + 1, 100 * (r + c + 1)), of 0 in the corner, and of u(r-1,c) + 1 and u(r,c-1) + 1 where they are
    Grid,
}

/// A book of a family, with so many unknowns.
#[derive(Clone, Copy)]
pub struct Shaped {
    shape: Shape,
    size: usize,
    ghost within: { size ≤ most_unknowns },
}

impl Shaped {
    /// The book of a family that has so many unknowns, or as many as a book may have.
    pub fn new(shape: Shape, size: usize) -> Shaped
        ensures { (result.shape ≡ shape) × (result.size ≡ min size most_unknowns) }
    {
        Shaped {
            shape,
            size: size.min(MOST_UNKNOWNS),
        }
    }

    // How many alternatives an unknown has.
    fn width(self, unknown: usize) -> usize
        ensures { result ≡ length (row self.shape self.size unknown) }
    {
        match self.shape {
            Shape::Chain | Shape::Reverse => 1,
            Shape::Ring if unknown == 0 => 2,
            Shape::Ring => 1,
            Shape::Grid if is_inner(unknown) => 3,
            Shape::Grid => 2,
        }
    }

    // An alternative of an unknown, if there are so many.
    fn pick(self, unknown: usize, number: usize) -> Option<Alternative<Bound, i64>>
        requires { unknown < self.size }
        ensures { result ≡ nth (row self.shape self.size unknown) number }
    {
        match self.shape {
            Shape::Chain => chain(unknown.checked_sub(1), number),
            Shape::Reverse => chain((unknown + 1 < self.size).then_some(unknown + 1), number),
            Shape::Ring => ring(self.size, unknown, number),
            Shape::Grid => grid(unknown, number),
        }
    }
}

impl Book<Bound> for Shaped {
    ghost equations = { λ b. family_equations b.shape b.size };

    ghost well = { λ b. fits b.shape b.size b.within };

    #[tactic(auto, using(books::proofs::Rows::rows_long))]
    fn count(&self) -> usize {
        self.size
    }

    #[tactic(auto, using(books::proofs::Rows::counted_inside, books::proofs::Rows::counted_past))]
    fn alternatives(&self, unknown: usize) -> Result<usize, Refusal> {
        if unknown >= self.size {
            return Err(Reason::NotThere.into());
        }
        Ok(self.width(unknown))
    }

    #[tactic(auto, using(books::proofs::Rows::asked_inside, books::proofs::Rows::asked_past))]
    fn alternative(
        &self,
        unknown: usize,
        number: usize,
    ) -> Result<Alternative<Bound, i64>, Refusal> {
        if unknown >= self.size {
            return Err(Reason::NotThere.into());
        }
        Ok(self.pick(unknown, number).ok_or(Reason::NotThere)?)
    }
}

// One more than the unknown before, or zero where there is none.
fn link(before: Option<usize>) -> Alternative<Bound, i64>
    ensures { result ≡ link_of before }
{
    match before {
        Some(unknown) => Alternative::shifted(unknown, 1),
        None => Alternative::constant(Bound::Whole(0)),
    }
}

// An unknown and one more, but no more than the cap.
fn capped(unknown: usize, cap: u32) -> Alternative<Bound, i64>
    ensures { result ≡ capped_of unknown cap }
{
    let cap = Term::Constant(Bound::Whole(i64::from(cap)));
    Alternative {
        test: Test::Always,
        terms: Terms::Two(Term::Shifted(unknown, 1), cap),
    }
}

// An alternative of a chain, for the unknown that follows `before`, or for the first if there is none.
fn chain(before: Option<usize>, number: usize) -> Option<Alternative<Bound, i64>>
    ensures { result ≡ nth (link_of before ∷ []) number }
{
    match number {
        0 => Some(link(before)),
        _ => None,
    }
}

// An alternative of a ring.
fn ring(size: usize, unknown: usize, number: usize) -> Option<Alternative<Bound, i64>>
    requires { unknown < size }
    ensures { result ≡ nth (ring_of size unknown) number }
{
    match (unknown, number) {
        (0, 1) => Some(capped(size - 1, 1000000)),
        _ => chain(unknown.checked_sub(1), number),
    }
}

// An alternative of a grid.
fn grid(unknown: usize, number: usize) -> Option<Alternative<Bound, i64>>
    requires { unknown < most_unknowns }
    ensures { result ≡ nth (grid_of unknown) number }
{
    match number {
        0 => Some(capped(unknown, height(unknown))),
        1 => Some(link(entry(unknown))),
        2 if is_inner(unknown) => Some(link(unknown.checked_sub(1))),
        _ => None,
    }
}

// In a grid, the unknown above, and in the first row the one before.
// Written by cases: with `checked_sub(COLUMNS)` and else the one before, a grid takes three tenths more instructions (docs/PERFORMANCE.md has the bar).
fn entry(unknown: usize) -> Option<usize>
    ensures { result ≡ (if unknown == 0 then None else Some (if nat_lt unknown 8 then unknown - 1 else unknown - 8)) }
{
    match unknown {
        0 => None,
        1..COLUMNS => Some(unknown - 1),
        _ => Some(unknown - COLUMNS),
    }
}

// In a grid, whether something stands above the unknown and to the left.
fn is_inner(unknown: usize) -> bool
    ensures { result ≡ not (nat_lt unknown 8) && not (unknown % 8 == 0) }
{
    unknown >= COLUMNS && unknown % COLUMNS > 0
}

// In a grid, how high the loop of the unknown goes.
fn height(unknown: usize) -> u32
    requires { unknown < most_unknowns }
    ensures { result ≡ height_of unknown }
{
    // `as`: there are at most 1,536 unknowns, and no `From` leads from `usize` to `u32`.
    100 * (unknown / COLUMNS + unknown % COLUMNS + 1) as u32
}
