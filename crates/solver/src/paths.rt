// Path evaluation: the values of a strategy, by sweeps in place from above.
ghost use Rattle.std.specs.Prelude.{◌≡◌, ◌<◌, true, false, ◌↔◌, length, OnSome};
ghost use Rattle.kinds.specs.Limits.{most_items};
ghost use Rattle.kinds.specs.Kinds.{Made};
ghost use Rattle.strategy_theory.specs.Strategies.{chosen as chosen_of};
ghost use Rattle.books.specs.Entries.{values, choices, Short};
ghost use Rattle.strategy_theory.specs.Steps.{Relaxes, SweepsAll, ShortSweep, opened_value, opened_all, Evaluates};

use books::{Alternative, Book, Entry, smaller_term};
use kinds::Kind;

// The alternative that an unknown of the list has chosen, if it has chosen one that is there.
fn chosen<K: Kind, B: Book<K>>(
    book: &B,
    list: &[Entry<K>],
    unknown: usize,
) -> Option<Alternative<K, K::Weight>>
    ensures value { result ≡ chosen_of (B.Book.equations book.now) (choices list.now) unknown }
    ensures inside { OnSome result (unknown < length list.now) }
{
    let number = list.get(unknown)?.choice?;
    book.alternative(unknown, number).ok()
}

// Gives one unknown the smaller of its chosen terms. Says whether its value changed.
fn relax<K: Kind, B: Book<K>>(book: &B, list: &mut [Entry<K>], unknown: usize) -> bool
    ensures relaxes { Short K.Kind.ops (values list.old) → Relaxes K.Kind.ops (B.Book.equations book.now) list.old unknown list.new }
    ensures strategy { choices list.new ≡ choices list.old }
    ensures still { result ≡ false → list.new ≡ list.old }
{
    let Some(choice) = chosen(book, list, unknown) else {
        return false;
    };
    let value = smaller_term(choice.terms, list);
    if same(value, list[unknown].value) {
        return false;
    }
    // By index: of a slice written through its `get_mut` a proof learns only the length.
    list[unknown].value = value;
    true
}

// Whether two values are equal. By the order: to require `PartialEq` of kinds would ask more of whoever writes one.
fn same<K: Kind>(value: K, other: K) -> bool
    ensures { Made K.Kind.ops most_items value → Made K.Kind.ops most_items other → (result ≡ true) ↔ (value ≡ other) }
{
    value.at_most(other) && other.at_most(value)
}

// Gives every unknown the smaller of its chosen terms, in order and in place. Says whether a value changed.
// Not one loop with `improve` over a closure: the invariants differ, and a shared loop would have to state one for every closure.
fn sweep<K: Kind, B: Book<K>>(book: &B, list: &mut [Entry<K>]) -> bool
    ensures sweeps { ShortSweep K.Kind.ops (B.Book.equations book.now) list.old → SweepsAll K.Kind.ops (B.Book.equations book.now) list.old list.new }
    ensures strategy { choices list.new ≡ choices list.old }
    ensures still { result ≡ false → list.new ≡ list.old }
{
    let mut changed = false;
    // By index: each term reads the whole list, in which one entry changes.
    for unknown in 0..list.len() {
        changed |= relax(book, list, unknown);
    }
    changed
}

// The value before the first sweep: greatest with a choice, least without.
fn first_value<K: Kind>(choice: Option<usize>) -> K
    ensures { result ≡ opened_value K.Kind.ops choice }
{
    match choice {
        Some(_) => K::greatest(),
        None => K::least(),
    }
}

// Gives every unknown with a choice the greatest value and every other the least.
fn open<K: Kind>(list: &mut [Entry<K>])
    ensures { list.new ≡ opened_all K.Kind.ops list.old }
{
    for entry in list.iter_mut() {
        entry.value = first_value(entry.choice);
    }
}

// Gives every unknown its value by the strategy. It stops at the first sweep that changes nothing, and makes no more sweeps than there are unknowns.
pub(crate) fn evaluate<K: Kind, B: Book<K>>(book: &B, list: &mut [Entry<K>])
    ensures values { Evaluates K.Kind.ops (B.Book.equations book.now) list.old list.new }
    ensures strategy { choices list.new ≡ choices list.old }
{
    open(list);
    for _turn in 0..list.len() {
        if !sweep(book, list) {
            return;
        }
    }
}
