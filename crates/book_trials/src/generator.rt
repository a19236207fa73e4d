// The parts of a drawn alternative.
ghost use Rattle.std.specs.Prelude.{◌≡◌, ◌<◌, ◌%◌};
ghost use Rattle.book_trials.specs.Keys.{drawn, at_part};
ghost use Rattle.book_trials.specs.declared.keys.Purpose.TheVariants.{Alternatives};
ghost use Rattle.book_trials.specs.DrawnBooks.{drawn_test, drawn_term, drawn_terms, drawn_alternative};

use crate::keys::{Key, Part, Purpose};
use crate::makers::Drawn;
use books::{Alternative, Term, Terms, Test};

/// Draws an alternative by its key, in a book of so many unknowns.
#[derive(Clone, Copy)]
pub(crate) struct Generator {
    pub(crate) key: Key,
    pub(crate) count: usize,
    ghost some: { 0 < count },
}

impl Generator {
    // The same, for a part of the alternative.
    fn at(self, part: Part) -> Generator
        ensures { (result.key ≡ at_part part self.key) × (result.count ≡ self.count) }
    {
        Generator {
            key: self.key.at(part),
            count: self.count,
        }
    }

    /// How many alternatives the unknown has.
    pub(crate) fn width(self) -> usize
        ensures { result ≡ drawn self.key Alternatives % 5 }
    {
        // `as`: a remainder fits, and no `From` leads from `u64` to `usize`.
        (self.key.draw(Purpose::Alternatives) % 5) as usize
    }

    // An unknown of the book, drawn for a purpose.
    fn unknown(self, purpose: Purpose) -> usize
        ensures { result ≡ drawn self.key purpose % self.count }
    {
        // `as`: drawn numbers are below 2^31, and no `From` leads from `u64` to `usize`.
        self.key.draw(purpose) as usize % self.count
    }

    // The test.
    fn test<K: Drawn>(self) -> Test<K>
        ensures { result ≡ drawn_test K.Drawn.maker self.count self.key }
    {
        let form = self.key.draw(Purpose::Form) % 5;
        if form < 3 {
            return Test::Always;
        }
        let unknown = self.unknown(Purpose::Unknown);
        let threshold = K::threshold(self.key.draw(Purpose::Value));
        if form == 3 {
            Test::Single(unknown, threshold)
        } else {
            Test::Joint(unknown, self.unknown(Purpose::Partner), threshold)
        }
    }

    // The term.
    fn term<K: Drawn>(self) -> Term<K, K::Weight>
        ensures { result ≡ drawn_term K.Drawn.maker self.count self.key }
    {
        if self.key.draw(Purpose::Form) % 3 == 0 {
            Term::Constant(K::constant(self.key.draw(Purpose::Value)))
        } else {
            let weight = K::weight(self.key.draw(Purpose::Weight));
            Term::Shifted(self.unknown(Purpose::Unknown), weight)
        }
    }

    // The terms.
    fn terms<K: Drawn>(self) -> Terms<K, K::Weight>
        ensures { result ≡ drawn_terms K.Drawn.maker self.count self.key }
    {
        let first = self.at(Part::First).term();
        if self.key.draw(Purpose::Terms) % 3 < 2 {
            Terms::One(first)
        } else {
            Terms::Two(first, self.at(Part::Second).term())
        }
    }

    /// The alternative.
    pub(crate) fn alternative<K: Drawn>(self) -> Alternative<K, K::Weight>
        ensures { result ≡ drawn_alternative K.Drawn.maker self.count self.key }
    {
        Alternative {
            test: self.test(),
            terms: self.terms(),
        }
    }
}
