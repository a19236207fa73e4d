// An analysis of a book: strategy improvement in a lent list.
ghost use Rattle.std.specs.Prelude.{◌≡◌, ◌+◌, ◌<◌, ◌≤◌, min, length, MatchResult, slice_index_or};
ghost use Rattle.kinds.specs.Limits.{most_rounds};
ghost use Rattle.base.specs.Reasons.{nowhere};
ghost use Rattle.base.specs.declared.Reason.TheVariants.{BudgetTooLarge, ListTooShort, NotThere};
ghost use Rattle.strategy_theory.specs.Lives.Call.{one_round, run, restart, value_of, choice_of, rounds_shown};
ghost use Rattle.strategy_theory.specs.Lives.Answer.{done, value as shown, choice as chosen, number};
ghost use Rattle.strategy_theory.specs.Theory.{Stands};
ghost use Rattle.strategy_theory.specs.Steps.{Ready, Ran};
ghost use Rattle.strategy_theory.specs.Calls.{fresh, Shows, ShowsChoice, Begins, Prolongs, ProlongsAny};
ghost use Rattle.solver.specs.Answers.{progressed, answered};
ghost use Rattle.solver.specs.Analyses.{state_of};

use crate::rounds::{Progress, make_rounds};
use base::{Reason, Refusal};
use books::{Book, Entry};
use kinds::Kind;

// The largest budget that a run may have. `as`: `From` is no constant function.
pub const MOST_ROUNDS: usize = u16::MAX as usize;

// The list that an analysis was lent, one entry for each unknown of its book, and the counted rounds since set-up or restart (65,535 if more).
// Lent, so that the solver needs no heap. Every call that takes a book is given the book of the set-up. With another one it stays within the list and ends, and says nothing.
// That it still has the same list (`same_list`) stands at each method that writes: it is about a reference before and after, which no invariant of the type tells.
#[derive(Drop)]
pub struct Analysis<'a, K> {
    list: &'a mut [Entry<K>],
    rounds: u16,
}

// Takes all choices back and gives every unknown the least value.
fn clear<K: Kind>(list: &mut [Entry<K>])
    ensures { list.new ≡ fresh K.Kind.ops (length list.old) }
{
    list.fill_with(|| Entry {
        value: K::least(),
        choice: None,
    });
}

impl<'a, K: Kind> Analysis<'a, K> {
    // An analysis in the whole list: nothing is chosen, all values are least.
    pub(crate) fn begin(list: &'a mut [Entry<K>]) -> Analysis<'a, K>
        ensures same_list { result.list.ghost_name ≡ list.entry.ghost_name }
        ensures fresh { (result.list.now ≡ fresh K.Kind.ops (length list.old)) × (result.rounds ≡ 0) }
    {
        clear(list);
        Analysis { list, rounds: 0 }
    }

    // An analysis of the book in the front of the list: nothing is chosen, all values are least.
    pub fn set_up<B: Book<K>>(
        book: &B,
        list: &'a mut [Entry<K>],
    ) -> Result<Analysis<'a, K>, Refusal>
        ensures starts { MatchResult result (λ a. (length (B.Book.equations book.now) ≤ length list.old) × (a.list.now ≡ fresh K.Kind.ops (length (B.Book.equations book.now))) × (a.rounds ≡ 0) × Begins K.Kind.ops (B.Book.equations book.now) (state_of a)) (λ e. (length list.old < length (B.Book.equations book.now)) × (e ≡ nowhere ListTooShort)) }
        ensures theory { Stands K.Kind.ops }
    {
        let Some(front) = list.get_mut(0..book.count()) else {
            return Err(Reason::ListTooShort.into());
        };
        Ok(Analysis::begin(front))
    }

    // Rounds until settled or the budget is used, counted.
    fn advance<B: Book<K>>(&mut self, book: &B, budget: u16) -> Progress
        ensures same_list { self.new.list.ghost_name ≡ self.old.list.ghost_name }
        ensures ran { Ready K.Kind.ops (B.Book.equations book.now) self.old.list.now → Ran K.Kind.ops (B.Book.equations book.now) budget self.old.list.now result.rounds result.settled self.new.list.now }
        ensures within { result.rounds ≤ budget }
        ensures counted { self.new.rounds ≡ min (self.old.rounds + result.rounds) most_rounds }
    {
        let progress = make_rounds(book, self.list, budget);
        self.rounds = self.rounds.saturating_add(progress.rounds);
        progress
    }

    // One round.
    pub fn round<B: Book<K>>(&mut self, book: &B) -> Progress
        ensures life { Prolongs K.Kind.ops (B.Book.equations book.now) one_round (progressed result) (state_of self.old) (state_of self.new) }
        ensures same_list { self.new.list.ghost_name ≡ self.old.list.ghost_name }
    {
        self.advance(book, 1)
    }

    // Rounds until settled or the budget is used.
    pub fn run<B: Book<K>>(&mut self, book: &B, budget: usize) -> Result<Progress, Refusal>
        ensures life { Prolongs K.Kind.ops (B.Book.equations book.now) (run budget) (answered progressed result) (state_of self.old) (state_of self.new) }
        ensures refusal { MatchResult result (λ p. (budget ≤ most_rounds) × (p.rounds ≤ budget)) (λ e. (most_rounds < budget) × (e ≡ nowhere BudgetTooLarge) × (state_of self.new ≡ state_of self.old)) }
        ensures same_list { self.new.list.ghost_name ≡ self.old.list.ghost_name }
    {
        let Ok(budget) = u16::try_from(budget) else {
            return Err(Reason::BudgetTooLarge.into());
        };
        Ok(self.advance(book, budget))
    }

    // Takes all choices back: as after set-up.
    pub fn restart(&mut self)
        ensures life { ProlongsAny K.Kind.ops restart done (state_of self.old) (state_of self.new) }
        ensures fresh { (self.new.list.now ≡ fresh K.Kind.ops (length self.old.list.now)) × (self.new.rounds ≡ 0) }
        ensures same_list { self.new.list.ghost_name ≡ self.old.list.ghost_name }
    {
        clear(self.list);
        self.rounds = 0;
    }

    // The entry of an unknown.
    fn entry_at(&self, unknown: usize) -> Result<Entry<K>, Refusal>
        ensures { MatchResult result (λ e. (unknown < length self.now.list.now) × (e ≡ slice_index_or self.now.list.now unknown e)) (λ e. (length self.now.list.now ≤ unknown) × (e ≡ nowhere NotThere)) }
    {
        Ok(self.list.get(unknown).copied().ok_or(Reason::NotThere)?)
    }

    // The value of an unknown.
    pub fn value(&self, unknown: usize) -> Result<K, Refusal>
        ensures life { ProlongsAny K.Kind.ops (value_of unknown) (answered shown result) (state_of self.now) (state_of self.now) }
        ensures answer { Shows K.Kind.ops self.now.list.now unknown result }
    {
        Ok(self.entry_at(unknown)?.value)
    }

    // The alternative that an unknown has chosen, if any.
    pub fn choice(&self, unknown: usize) -> Result<Option<usize>, Refusal>
        ensures life { ProlongsAny K.Kind.ops (choice_of unknown) (answered chosen result) (state_of self.now) (state_of self.now) }
        ensures answer { ShowsChoice self.now.list.now unknown result }
    {
        Ok(self.entry_at(unknown)?.choice)
    }

    // The counted rounds since set-up or restart, 65,535 if more.
    pub fn rounds(&self) -> u16
        ensures life { ProlongsAny K.Kind.ops rounds_shown (number result) (state_of self.now) (state_of self.now) }
        ensures answer { result ≡ self.now.rounds }
    {
        self.rounds
    }
}
