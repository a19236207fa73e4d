// What the parts of a book are worth at the values of a list of entries. An unknown that is not in the list counts as least.
// `Short` is a premise, not an invariant of a type: a list comes from any caller, and no test tells of how many items a value is made.
ghost use Rattle.std.specs.Prelude.{◌≡◌, ℕ, not, [], slice_index_or};
ghost use Rattle.kinds.specs.Kinds.{Made};
ghost use Rattle.kinds.specs.Limits.{most_items};
ghost use Rattle.books.specs.Books.{at, holds, term as term_of, terms as terms_of, worth, right, Largest, Betters};
ghost use Rattle.books.specs.Forms.{Among, WellTest, WellTerm, WellAlternative};
ghost use Rattle.books.specs.Entries.{values, Short};
ghost use Rattle.books.specs.declared.Term.{Term};

use crate::{Alternative, Book, Entry, Term, Terms, Test};
use kinds::Kind;

// The right side of an unknown: its value, and the first alternative that reaches it, if there is any.
// The value stands outside of the `Option`: where there is no alternative it is least, and is read like any other.
#[derive(Clone, Copy, PartialEq, Eq, Debug)]
pub struct RightSide<V> {
    pub value: V,
    pub first: Option<usize>,
}

// The value of an unknown.
pub fn value_at<K: Kind>(list: &[Entry<K>], unknown: usize) -> K
    ensures { result ≡ at K.Kind.ops (values list.now) unknown }
{
    match list.get(unknown) {
        Some(entry) => entry.value,
        None => K::least(),
    }
}

// Whether a test holds.
pub fn test_holds<K: Kind>(test: Test<K>, list: &[Entry<K>]) -> bool
    ensures { (n : ℕ) → Short K.Kind.ops (values list.now) → WellTest K.Kind.ops n test → result ≡ holds K.Kind.ops (values list.now) test }
{
    match test {
        Test::Always => true,
        Test::Single(unknown, threshold) => threshold.at_most(value_at(list, unknown)),
        Test::Joint(unknown, other, threshold) => {
            let value = value_at(list, unknown);
            value.joint(value_at(list, other), threshold)
        }
    }
}

// The value of a term.
pub fn term_value<K: Kind>(part: Term<K, K::Weight>, list: &[Entry<K>]) -> K
    ensures { (n : ℕ) → Short K.Kind.ops (values list.now) → WellTerm K.Kind.ops n part → result ≡ term_of K.Kind.ops (values list.now) part }
{
    match part {
        Term::Constant(constant) => constant,
        Term::Shifted(unknown, weight) => value_at(list, unknown).shift(weight),
    }
}

// The smaller of the terms.
pub fn smaller_term<K: Kind>(parts: Terms<K, K::Weight>, list: &[Entry<K>]) -> K
    ensures { (n : ℕ) → Short K.Kind.ops (values list.now) → ((t : Term K K.Weight) → Among t parts → WellTerm K.Kind.ops n t) → result ≡ terms_of K.Kind.ops (values list.now) parts }
{
    match parts {
        Terms::One(part) => term_value(part, list),
        Terms::Two(part, other) => {
            let value = term_value(part, list);
            let against = term_value(other, list);
            if value.at_most(against) {
                value
            } else {
                against
            }
        }
    }
}

// The value of an alternative.
pub fn alternative_value<K: Kind>(choice: Alternative<K, K::Weight>, list: &[Entry<K>]) -> K
    ensures { (n : ℕ) → Short K.Kind.ops (values list.now) → WellAlternative K.Kind.ops n choice → result ≡ worth K.Kind.ops (values list.now) choice }
{
    if test_holds(choice.test, list) {
        smaller_term(choice.terms, list)
    } else {
        K::least()
    }
}

// The better of what is known of a right side and one alternative more, of the given number and value.
fn better<K: Kind>(known: RightSide<K>, number: usize, value: K) -> RightSide<K>
    ensures { Betters K.Kind.ops known number value result }
{
    if known.first.is_some() && value.at_most(known.value) {
        known
    } else {
        RightSide {
            value,
            first: Some(number),
        }
    }
}

// The right side of an unknown; least where there is no such unknown.
pub fn right_side<K: Kind, B: Book<K>>(book: &B, list: &[Entry<K>], unknown: usize) -> RightSide<K>
    ensures { Short K.Kind.ops (values list.now) → Largest K.Kind.ops (values list.now) (slice_index_or (B.Book.equations book.now) unknown []) result }
{
    let mut best = RightSide {
        value: K::least(),
        first: None,
    };
    let count = book.alternatives(unknown).unwrap_or(0);
    // By number: a book answers for one alternative at a time, and holds no list of them.
    for number in 0..count {
        if let Ok(choice) = book.alternative(unknown, number) {
            best = better(best, number, alternative_value(choice, list));
        }
    }
    best
}

// Whether the right side of an unknown is greater than a value. It looks no further than to the first alternative that is.
pub fn rises<K: Kind, B: Book<K>>(book: &B, list: &[Entry<K>], unknown: usize, value: K) -> bool
    ensures { Short K.Kind.ops (values list.now) → Made K.Kind.ops most_items value → result ≡ not (K.Kind.ops.at_most (right K.Kind.ops (B.Book.equations book.now) (values list.now) unknown) value) }
{
    let count = book.alternatives(unknown).unwrap_or(0);
    // By number: a book answers for one alternative at a time, and holds no list of them.
    for number in 0..count {
        if let Ok(choice) = book.alternative(unknown, number) {
            if !alternative_value(choice, list).at_most(value) {
                return true;
            }
        }
    }
    false
}
