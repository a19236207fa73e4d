// Improvement of a strategy, and whether there is nothing left to improve.
// Book and list go side by side: with a struct of both, each function would owe one clause more, that it keeps its reference to the list.
// That values are short is a premise, not an invariant: a call may give another book than the set-up, and then nothing is known of the list, and nothing refused.
ghost use Rattle.std.specs.Prelude.{◌≡◌, ◌<◌, true, false, ◌↔◌, length};
ghost use Rattle.books.specs.Entries.{values, Short};
ghost use Rattle.strategy_theory.specs.Solving.{Settled};
ghost use Rattle.strategy_theory.specs.Steps.{Switches, ImprovesAll};

use books::{Book, Entry, right_side, rises};
use kinds::Kind;

// Switches one unknown to the first alternative that reaches its right side, if that is greater than its value. Says whether it did.
fn switch<K: Kind, B: Book<K>>(book: &B, list: &mut [Entry<K>], unknown: usize) -> bool
    ensures switches { Short K.Kind.ops (values list.old) → unknown < length list.old → Switches K.Kind.ops (B.Book.equations book.now) list.old unknown result list.new }
    ensures still { result ≡ false → list.new ≡ list.old }
{
    let best = right_side(book, list, unknown);
    let Some(entry) = list.get(unknown) else {
        return false;
    };
    if best.value.at_most(entry.value) {
        return false;
    }
    // By index: of a slice written through its `get_mut` a proof learns only the length.
    list[unknown].choice = best.first;
    true
}

// Switches every unknown whose right side is greater than its value. Says whether any switched.
pub(crate) fn improve<K: Kind, B: Book<K>>(book: &B, list: &mut [Entry<K>]) -> bool
    ensures improves { Short K.Kind.ops (values list.old) → length list.old ≡ length (B.Book.equations book.now) → ImprovesAll K.Kind.ops (B.Book.equations book.now) list.old result list.new }
    ensures still { result ≡ false → list.new ≡ list.old }
{
    let mut switched = false;
    // By index: each right side reads the whole list, in which one entry changes.
    for unknown in 0..list.len() {
        switched |= switch(book, list, unknown);
    }
    switched
}

// Whether no right side is greater than its value. It looks no further than to the first that is.
pub(crate) fn is_settled<K: Kind, B: Book<K>>(book: &B, list: &[Entry<K>]) -> bool
    ensures { Short K.Kind.ops (values list.now) → length list.now ≡ length (B.Book.equations book.now) → (result ≡ true) ↔ Settled K.Kind.ops (B.Book.equations book.now) (values list.now) }
{
    list.iter().enumerate().all(|(unknown, entry)| !rises(book, list, unknown, entry.value))
}
