// What came of the drawn books of a kind.
ghost use Rattle.std.specs.Prelude.{◌≡◌, ◌≢◌, ◌+◌, ◌-◌, ◌^◌, min, IsTrue, Some, None, IfOk};

use crate::book::DrawnBook;
use crate::makers::{Drawn, Names};
use crate::trial::{Trial, try_book};
use base::Refusal;
use reference::Extended;
use std::alloc::Global;
use std::fmt;

/// How many books of each kind are drawn, thirty or more of each size: of 0 to 12 unknowns.
pub const BOOKS: u32 = 400;

/// How many books there were, the values that the reference found, and the seed of the first book at which the solvers differ.
#[derive(Clone, Copy)]
pub struct Tally {
    pub names: Names,
    pub books: u32,
    pub lowest: u32,
    pub between: u32,
    pub highest: u32,
    pub first_wrong: Option<u32>,
}

impl Tally {
    fn new(names: Names) -> Tally
        ensures { (result.books ≡ 0) × (result.first_wrong ≡ None) }
    {
        Tally {
            names,
            books: 0,
            lowest: 0,
            between: 0,
            highest: 0,
            first_wrong: None,
        }
    }

    fn add_value<K: Drawn>(&mut self, value: Extended)
        ensures books { self.new.books ≡ self.old.books }
        ensures kept { self.new.first_wrong ≡ self.old.first_wrong }
    {
        if value == K::least().extended() {
            self.lowest = self.lowest.saturating_add(1);
        } else if value == K::greatest().extended() {
            self.highest = self.highest.saturating_add(1);
        } else {
            self.between = self.between.saturating_add(1);
        }
    }

    // Counts a book, and what the reference found.
    fn add<K: Drawn>(&mut self, seed: u32, trial: &Trial)
        ensures books { self.new.books ≡ min (self.old.books + 1) (2 ^ 32 - 1) }
        ensures noted { ¬ IsTrue trial.now.agrees → self.new.first_wrong ≢ None }
        ensures kept { self.old.first_wrong ≢ None → self.new.first_wrong ≡ self.old.first_wrong }
    {
        self.books = self.books.saturating_add(1);
        for value in &trial.found {
            self.add_value::<K>(*value);
        }
        let wrong = (!trial.agrees).then_some(seed);
        self.first_wrong = self.first_wrong.or(wrong);
    }
}

/// Tries the drawn books of a kind.
pub fn try_books<K: Drawn>(alloc: Global) -> Result<Tally, Refusal>
    ensures { IfOk result (λ tally. tally.books ≡ BOOKS) }
{
    let mut tally = Tally::new(K::NAMES);
    for seed in 0..BOOKS {
        // `as`: a remainder fits, and no `From` leads from `u32` to `usize`.
        let book = DrawnBook::new(seed, (seed % 13) as usize);
        let trial = try_book::<K, DrawnBook>(alloc, &book, book.cap())?;
        tally.add::<K>(seed, &trial);
    }
    Ok(tally)
}

impl fmt::Display for Tally {
    fn fmt<W: fmt::Write>(&self, f: &mut fmt::Formatter<W>) -> fmt::Result {
        let Tally {
            names,
            books,
            lowest,
            between,
            highest,
            first_wrong,
        } = *self;
        let values = lowest.saturating_add(between).saturating_add(highest);
        write!(
            f,
            "{books} books, {values} values: {lowest} {}, ",
            names.lowest
        )?;
        write!(
            f,
            "{between} {}, {highest} {}; ",
            names.between, names.highest
        )?;
        match first_wrong {
            None => f.write_str("the analyses agree"),
            Some(seed) => write!(f, "WRONG, first at seed {seed}"),
        }
    }
}
