// Calls of an analysis as values, and any list of them made in a row.
ghost use Rattle.std.specs.Prelude.{◌≡◌, ◌≤◌, length, take, drop, All, MatchResult};
ghost use Rattle.strategy_theory.specs.Promises.{LivesStand};
ghost use Rattle.strategy_theory.specs.Calls.{state, Prolongs};
ghost use Rattle.solver.specs.Answers.{IsUnplaced, call_of, answer_of, history};
ghost use Rattle.solver.specs.Analyses.{state_of};
ghost use Rattle.solver.specs.Whole.{LeadsOn, LivedThrough, TurnedBack};

use crate::analysis::Analysis;
use crate::rounds::Progress;
use base::{Reason, Refusal};
use books::{Book, Entry};
use kinds::Kind;

// A call of an analysis: a value, not a closure, since `make_calls` promises something of every list of calls.
#[derive(Clone, Copy, PartialEq, Eq, Debug)]
pub enum Call {
    Round,
    Run(usize),
    Restart,
    Value(usize),
    Choice(usize),
    Rounds,
}

// What a call answers that is not refused: what a round or a run came to; done; a value; a choice; or the counted rounds.
#[derive(Clone, Copy, PartialEq, Eq, Debug)]
pub enum Answer<K> {
    Made(Progress),
    Done,
    Shown(K),
    Chosen(Option<usize>),
    Counted(u16),
}

impl<'a, K: Kind> Analysis<'a, K> {
    // Makes one call.
    fn make<B: Book<K>>(&mut self, book: &B, call: Call) -> Result<Answer<K>, Refusal>
        ensures life { Prolongs K.Kind.ops (B.Book.equations book.now) (call_of call) (answer_of result) (state_of self.old) (state_of self.new) }
        ensures same_list { self.new.list.ghost_name ≡ self.old.list.ghost_name }
        ensures unplaced { IsUnplaced result }
    {
        match call {
            Call::Round => Ok(Answer::Made(self.round(book))),
            Call::Run(budget) => Ok(Answer::Made(self.run(book, budget)?)),
            Call::Restart => {
                self.restart();
                Ok(Answer::Done)
            }
            Call::Value(unknown) => Ok(Answer::Shown(self.value(unknown)?)),
            Call::Choice(unknown) => Ok(Answer::Chosen(self.choice(unknown)?)),
            Call::Rounds => Ok(Answer::Counted(self.rounds())),
        }
    }
}

// Makes the calls in a row, from set-up on, and puts their answers down in order. Answers the counted rounds that are shown at the end.
fn make_all<K: Kind, B: Book<K>>(
    book: &B,
    list: &mut [Entry<K>],
    calls: &[Call],
    answers: &mut [Result<Answer<K>, Refusal>],
) -> u16
    requires { length calls.now ≤ length answers.old }
    ensures life { length list.old ≡ length (B.Book.equations book.now) → LeadsOn K.Kind.ops (B.Book.equations book.now) (history calls.now (take (length calls.now) answers.new)) (state list.new result) }
    ensures unplaced { All IsUnplaced (take (length calls.now) answers.new) }
    ensures behind { drop (length calls.now) answers.new ≡ drop (length calls.now) answers.old }
{
    let mut analysis = Analysis::begin(list);
    // By index: of a slice written through an adapter of its `iter_mut` a proof learns only the length.
    for (place, call) in calls.iter().enumerate() {
        answers[place] = analysis.make(book, *call);
    }
    analysis.rounds()
}

// Sets an analysis of the book up in the front of the list, makes the calls one after another, whatever they are, and puts their answers down in order.
// Answers the counted rounds that are shown at the end. Refused if the list is shorter than the book or the answers are fewer than the calls.
// Calls and answers are two lists, since both are lent and the calls are only read.
pub fn make_calls<K: Kind, B: Book<K>>(
    book: &B,
    list: &mut [Entry<K>],
    calls: &[Call],
    answers: &mut [Result<Answer<K>, Refusal>],
) -> Result<u16, Refusal>
    ensures whole { MatchResult result (λ n. LivedThrough K.Kind.ops (B.Book.equations book.now) calls.now list.old answers.old n list.new answers.new) (λ e. TurnedBack K.Kind.ops (B.Book.equations book.now) calls.now list.old answers.old e list.new answers.new) }
    ensures law { LivesStand K.Kind.ops ⊥ ⊥ }
{
    let count = book.count();
    if list.len() < count || answers.len() < calls.len() {
        return Err(Reason::ListTooShort.into());
    }
    // By range: of a list cut by its `get_mut` a proof learns only the length, and the clause says what lies behind.
    Ok(make_all(book, &mut list[0..count], calls, answers))
}
