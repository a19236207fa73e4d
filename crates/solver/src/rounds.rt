// Rounds of strategy improvement.
ghost use Rattle.std.specs.Prelude.{◌≤◌};
ghost use Rattle.strategy_theory.specs.Steps.{Ready, Ran};

use crate::choosing::{improve, is_settled};
use crate::paths::evaluate;
use books::{Book, Entry};
use kinds::Kind;

// What a round or a run came to: the counted rounds that it made, and whether the analysis is settled then.
// A flag beside the rounds, not an `Option`: the rounds are told in both cases.
#[derive(Clone, Copy, PartialEq, Eq, Debug)]
pub struct Progress {
    pub rounds: u16,
    pub settled: bool,
}

// Makes rounds until settled or the budget is used.
pub(crate) fn make_rounds<K: Kind, B: Book<K>>(
    book: &B,
    list: &mut [Entry<K>],
    budget: u16,
) -> Progress
    ensures ran { Ready K.Kind.ops (B.Book.equations book.now) list.old → Ran K.Kind.ops (B.Book.equations book.now) budget list.old result.rounds result.settled list.new }
    ensures within { result.rounds ≤ budget }
{
    for rounds in 0..budget {
        if !improve(book, list) {
            return Progress {
                rounds,
                settled: true,
            };
        }
        evaluate(book, list);
    }
    Progress {
        rounds: budget,
        settled: is_settled(book, list),
    }
}
