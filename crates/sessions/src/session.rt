// An analysis that holds its book.
ghost use Rattle.std.specs.Prelude.{◌≡◌, ◌<◌, ◌≤◌, true, ◌↔◌, length, IfOk, MatchResult};
ghost use Rattle.kinds.specs.Limits.{most_rounds};
ghost use Rattle.base.specs.Reasons.{nowhere};
ghost use Rattle.base.specs.declared.Reason.TheVariants.{BudgetTooLarge, ListTooShort};
ghost use Rattle.books.specs.Entries.{values};
ghost use Rattle.strategy_theory.specs.Lives.{begun};
ghost use Rattle.strategy_theory.specs.Lives.Call.{one_round, run, restart, value_of, choice_of, rounds_shown};
ghost use Rattle.strategy_theory.specs.Lives.Answer.{done, value as shown, choice as chosen, number};
ghost use Rattle.strategy_theory.specs.Solving.{Settled};
ghost use Rattle.strategy_theory.specs.Promises.{Least};
ghost use Rattle.strategy_theory.specs.Calls.{Shows, ShowsChoice, call_with, answer_with};
ghost use Rattle.solver.specs.Answers.{IsUnplaced, progressed, answered, call_of, answer_of};
ghost use Rattle.solver.specs.Analyses.{state_of};
ghost use Rattle.soundness_theory.specs.Questions.{is_settled};
ghost use Rattle.sessions.specs.Sessions.{Lived, Opens, CarriesOn};

use base::Refusal;
use books::{Book, Entry};
use kinds::Kind;
use solver::{Analysis, Answer, Call, Progress};

// An analysis with its book, so that no call can be given another one. It knows whether it is settled: that is found at set-up and with each round, run and restart, and not again for a question.
// Some history of calls led to its state (`lived`), so what is said of every such history is said of something.
#[derive(Drop)]
pub struct Session<'a, K: Kind, B: Book<K> + Copy> {
    pub(crate) book: B,
    pub(crate) analysis: Analysis<'a, K>,
    pub(crate) settled: bool,
    ghost lived: { ∥ Lived K.Kind.ops (B.Book.equations book) (state_of analysis) ∥₁ },
    ghost known: { settled ≡ is_settled K.Kind.ops (B.Book.equations book) (values analysis.list.now) },
}

// Whether an analysis that has just begun is settled: a run of no rounds tells. It is not refused, and changes nothing.
fn rests<K: Kind, B: Book<K>>(analysis: &mut Analysis<'_, K>, book: &B) -> bool
    ensures same_list { analysis.new.list.ghost_name ≡ analysis.old.list.ghost_name }
    ensures begun { state_of analysis.old ≡ begun K.Kind.ops (B.Book.equations book.now) → (state_of analysis.new ≡ begun K.Kind.ops (B.Book.equations book.now)) × (result ≡ is_settled K.Kind.ops (B.Book.equations book.now) (values analysis.new.list.now)) }
{
    match analysis.run(book, 0) {
        Ok(progress) => progress.settled,
        Err(_) => false,
    }
}

impl<'a, K: Kind, B: Book<K> + Copy> Session<'a, K, B> {
    // A session on a book, in the front of a list: nothing is chosen, all values are least.
    pub fn set_up(book: B, list: &'a mut [Entry<K>]) -> Result<Session<'a, K, B>, Refusal>
        ensures starts { MatchResult result (λ s. (length (B.Book.equations book) ≤ length list.old) × (s.book ≡ book) × (state_of s.analysis ≡ begun K.Kind.ops (B.Book.equations book))) (λ e. (length list.old < length (B.Book.equations book)) × (e ≡ nowhere ListTooShort)) }
        ensures life { IfOk result (λ s. Opens K.Kind.ops (B.Book.equations book) (state_of s.analysis)) }
    {
        let mut analysis = Analysis::set_up(&book, list)?;
        let settled = rests(&mut analysis, &book);
        Ok(Session {
            book,
            analysis,
            settled,
        })
    }

    // One round.
    pub fn round(&mut self) -> Progress
        ensures life { CarriesOn K.Kind.ops (B.Book.equations self.old.book) one_round (answer_with (progressed result)) (state_of self.old.analysis) (state_of self.new.analysis) }
        ensures same_book { self.new.book ≡ self.old.book }
        ensures same_list { self.new.analysis.list.ghost_name ≡ self.old.analysis.list.ghost_name }
    {
        let progress = self.analysis.round(&self.book);
        self.settled = progress.settled;
        progress
    }

    // Rounds until settled or the budget is used.
    pub fn run(&mut self, budget: usize) -> Result<Progress, Refusal>
        ensures life { CarriesOn K.Kind.ops (B.Book.equations self.old.book) (run budget) (answer_with (answered progressed result)) (state_of self.old.analysis) (state_of self.new.analysis) }
        ensures refusal { MatchResult result (λ p. (budget ≤ most_rounds) × (p.rounds ≤ budget)) (λ e. (most_rounds < budget) × (e ≡ nowhere BudgetTooLarge) × (state_of self.new.analysis ≡ state_of self.old.analysis)) }
        ensures same_book { self.new.book ≡ self.old.book }
        ensures same_list { self.new.analysis.list.ghost_name ≡ self.old.analysis.list.ghost_name }
    {
        let progress = self.analysis.run(&self.book, budget)?;
        self.settled = progress.settled;
        Ok(progress)
    }

    // Takes all choices back: as after set-up.
    pub fn restart(&mut self)
        ensures life { CarriesOn K.Kind.ops (B.Book.equations self.old.book) restart done (state_of self.old.analysis) (state_of self.new.analysis) }
        ensures fresh { state_of self.new.analysis ≡ begun K.Kind.ops (B.Book.equations self.old.book) }
        ensures same_book { self.new.book ≡ self.old.book }
        ensures same_list { self.new.analysis.list.ghost_name ≡ self.old.analysis.list.ghost_name }
    {
        self.analysis.restart();
        self.settled = rests(&mut self.analysis, &self.book);
    }

    // Whether it is settled. Then it shows the least solution.
    pub fn is_settled(&self) -> bool
        ensures value { result ≡ is_settled K.Kind.ops (B.Book.equations self.now.book) (values self.now.analysis.list.now) }
        ensures same { (result ≡ true) ↔ Settled K.Kind.ops (B.Book.equations self.now.book) (values self.now.analysis.list.now) }
        ensures least { result ≡ true → Least K.Kind.ops (B.Book.equations self.now.book) (values self.now.analysis.list.now) }
    {
        self.settled
    }

    // The value of an unknown.
    pub fn value(&self, unknown: usize) -> Result<K, Refusal>
        ensures life { CarriesOn K.Kind.ops (B.Book.equations self.now.book) (value_of unknown) (answer_with (answered shown result)) (state_of self.now.analysis) (state_of self.now.analysis) }
        ensures answer { Shows K.Kind.ops self.now.analysis.list.now unknown result }
    {
        self.analysis.value(unknown)
    }

    // The alternative that an unknown has chosen, if any.
    pub fn choice(&self, unknown: usize) -> Result<Option<usize>, Refusal>
        ensures life { CarriesOn K.Kind.ops (B.Book.equations self.now.book) (choice_of unknown) (answer_with (answered chosen result)) (state_of self.now.analysis) (state_of self.now.analysis) }
        ensures answer { ShowsChoice self.now.analysis.list.now unknown result }
    {
        self.analysis.choice(unknown)
    }

    // The counted rounds since set-up or restart, 65,535 if more.
    pub fn rounds(&self) -> u16
        ensures life { CarriesOn K.Kind.ops (B.Book.equations self.now.book) rounds_shown (number result) (state_of self.now.analysis) (state_of self.now.analysis) }
        ensures answer { result ≡ self.now.analysis.rounds }
    {
        self.analysis.rounds()
    }

    // Makes one of the calls of every analysis.
    pub(crate) fn make(&mut self, call: Call) -> Result<Answer<K>, Refusal>
        ensures life { CarriesOn K.Kind.ops (B.Book.equations self.old.book) (call_with (call_of call)) (answer_with (answer_of result)) (state_of self.old.analysis) (state_of self.new.analysis) }
        ensures unplaced { IsUnplaced result }
        ensures same_book { self.new.book ≡ self.old.book }
        ensures same_list { self.new.analysis.list.ghost_name ≡ self.old.analysis.list.ghost_name }
    {
        match call {
            Call::Round => Ok(Answer::Made(self.round())),
            Call::Run(budget) => Ok(Answer::Made(self.run(budget)?)),
            Call::Restart => {
                self.restart();
                Ok(Answer::Done)
            }
            Call::Value(unknown) => Ok(Answer::Shown(self.value(unknown)?)),
            Call::Choice(unknown) => Ok(Answer::Chosen(self.choice(unknown)?)),
            Call::Rounds => Ok(Answer::Counted(self.rounds())),
        }
    }
}
