// Drawn books of equations.
ghost use Rattle.std.specs.Prelude.{◌≡◌, ◌<◌, ◌≤◌, min, MatchResult};
ghost use Rattle.base.specs.Reasons.{nowhere};
ghost use Rattle.base.specs.declared.Reason.TheVariants.{NotThere};
ghost use Rattle.book_trials.specs.Keys.{key_of};
ghost use Rattle.book_trials.specs.DrawnBooks.{drawn_book};
ghost use Rattle.book_trials.specs.WellFormed.{drawn_well};

use crate::generator::Generator;
use crate::keys::Key;
use crate::makers::Drawn;
use base::{Reason, Refusal};
use books::{Alternative, Book};

// The most unknowns of a drawn book.
const MOST_UNKNOWNS: usize = 12;

// No constant is larger, and every weight is smaller.
const MOST_CONSTANT: i64 = 20;

/// A book drawn by its seed. Nothing of it is held: what is asked for is drawn then.
#[derive(Clone, Copy)]
pub struct DrawnBook {
    seed: u32,
    count: usize,
    ghost few: { count ≤ 12 },
}

impl DrawnBook {
    /// The book of a seed, of this many unknowns, and of 12 if it were more.
    pub fn new(seed: u32, count: usize) -> DrawnBook
        ensures { (result.seed ≡ seed) × (result.count ≡ min count 12) }
    {
        DrawnBook {
            seed,
            count: count.min(MOST_UNKNOWNS),
        }
    }

    /// The largest number that the least solution may have.
    pub fn cap(self) -> i64 {
        // `as`: there are at most 12, and no `From` leads from `usize` to `i64`.
        MOST_CONSTANT * self.count as i64
    }

    // What draws an alternative of an unknown, if the unknown is there.
    fn generator(self, unknown: usize, number: u32) -> Result<Generator, Refusal>
        ensures { MatchResult result (λ g. (unknown < self.count) × (g.key ≡ key_of self.seed unknown number) × (g.count ≡ self.count)) (λ e. (self.count ≤ unknown) × (e ≡ nowhere NotThere)) }
    {
        if unknown >= self.count {
            return Err(Reason::NotThere.into());
        }
        // `as`: it is below 12, and no `From` leads from `usize` to `u32`.
        Ok(Generator {
            key: Key::new(self.seed, unknown as u32, number),
            count: self.count,
        })
    }
}

impl<K: Drawn> Book<K> for DrawnBook {
    ghost equations = { λ b. drawn_book K.Drawn.maker b.seed b.count };

    ghost well = { λ b. drawn_well K.Kind.ops K.Drawn.maker K.Drawn.sound b.seed b.count b.few };

    #[tactic(auto, using(crate::specs::WellFormed::drawn_long))]
    fn count(&self) -> usize {
        self.count
    }

    #[tactic(auto, using(crate::specs::WellFormed::counted_there, crate::specs::WellFormed::counted_nowhere))]
    fn alternatives(&self, unknown: usize) -> Result<usize, Refusal> {
        Ok(self.generator(unknown, 0)?.width())
    }

    #[tactic(auto, using(crate::specs::WellFormed::asked_there, crate::specs::WellFormed::asked_over, crate::specs::WellFormed::asked_nowhere))]
    fn alternative(
        &self,
        unknown: usize,
        number: usize,
    ) -> Result<Alternative<K, K::Weight>, Refusal> {
        if number >= self.generator(unknown, 0)?.width() {
            return Err(Reason::NotThere.into());
        }
        // `as`: it is below 4, and no `From` leads from `usize` to `u32`.
        Ok(self.generator(unknown, number as u32)?.alternative())
    }
}
