// Asking a book for all its alternatives.
ghost use Rattle.std.specs.Prelude.{◌≡◌, ◌-◌, ◌^◌, min, [], slice_index_or};
ghost use Rattle.bench.specs.Asked.{term_count as count_of, terms_in, all_alternatives, all_terms};

use books::{Book, Terms};
use kinds::Kind;

/// How many alternatives and terms a book answered, as far as 64 bits reach.
#[derive(Clone, Copy)]
pub struct Asked {
    pub alternatives: usize,
    pub terms: usize,
}

// How many terms there are.
fn term_count<V: Copy, W: Copy>(terms: Terms<V, W>) -> usize
    ensures { result ≡ count_of terms }
{
    match terms {
        Terms::One(_) => 1,
        Terms::Two(_, _) => 2,
    }
}

// Asks for the alternatives of an unknown, and counts their terms.
fn ask_unknown<K: Kind, B: Book<K>>(book: &B, unknown: usize) -> usize
    ensures { result ≡ min (terms_in (slice_index_or (B.Book.equations book.now) unknown [])) (2 ^ 64 - 1) }
{
    let mut terms: usize = 0;
    // By number: a book answers for one alternative at a time.
    for number in 0..book.alternatives(unknown).unwrap_or(0) {
        if let Ok(alternative) = book.alternative(unknown, number) {
            terms = terms.saturating_add(term_count(alternative.terms));
        }
    }
    terms
}

/// Asks for everything that a book has.
pub fn ask_all<K: Kind, B: Book<K>>(book: &B) -> Asked
    ensures alternatives { result.alternatives ≡ min (all_alternatives (B.Book.equations book.now)) (2 ^ 64 - 1) }
    ensures terms { result.terms ≡ min (all_terms (B.Book.equations book.now)) (2 ^ 64 - 1) }
{
    let mut asked = Asked {
        alternatives: 0,
        terms: 0,
    };
    // By number: a book answers for one unknown at a time.
    for unknown in 0..book.count() {
        let count = book.alternatives(unknown).unwrap_or(0);
        asked.alternatives = asked.alternatives.saturating_add(count);
        asked.terms = asked.terms.saturating_add(ask_unknown(book, unknown));
    }
    asked
}
