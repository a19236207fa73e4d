// How far a variable can go at a point.
ghost use Rattle.std.specs.Prelude.{◌≡◌, List, ℤ, IfSome, IfOk};
ghost use Rattle.kinds.specs.Values.{bounds, Near};
ghost use Rattle.books.specs.Entries.{values};
ghost use Rattle.strategy_theory.specs.Lives.Call.{question};
ghost use Rattle.strategy_theory.specs.Lives.Answer.{told};
ghost use Rattle.strategy_theory.specs.Promises.{GoesOn};
ghost use Rattle.solver.specs.Analyses.{state_of};
ghost use Rattle.script_equations_theory.specs.Bounds.{bound_book};
ghost use Rattle.soundness_theory.specs.Runs.{Run, of};
ghost use Rattle.soundness_theory.specs.Intervals.{ends as ends_of, LiesIn, Stands};
ghost use Rattle.soundness_theory.specs.Questions.{ask};
ghost use Rattle.soundness_theory.specs.Questions.Question.{interval_of};
ghost use Rattle.soundness_theory.specs.Questions.Told.{shown};
ghost use Rattle.script_graph.specs.Meaning.{meaning};
ghost use Rattle.sessions.specs.Answers.{asked_interval, told_by};

use crate::session::Session;
use base::{Reason, Refusal};
use kinds::Bound;
use script_books::BoundBook;

// The lowest and the highest value, by an upper bound and a lower bound negated; none where one of them is least.
fn ends(upper: Bound, lower: Bound) -> Option<(Bound, Bound)>
    ensures { Near lower → result ≡ ends_of upper lower }
{
    match (upper, lower) {
        (Bound::Least, _) | (_, Bound::Least) => None,
        (_, Bound::Whole(negated)) => Some((Bound::Whole(negated.saturating_neg()), upper)),
        (_, Bound::Greatest) => Some((Bound::Least, upper)),
    }
}

impl Session<'_, Bound, BoundBook<'_>> {
    // The lowest and the highest value that a variable can have at a point, if anything reaches the point.
    pub fn interval(&self, point: usize, variable: usize) -> Result<Option<(Bound, Bound)>, Refusal>
        ensures answer { result ≡ asked_interval (meaning self.now.book.graph.now) (values self.now.analysis.list.now) point variable }
        ensures inside { IfOk result (λ i. (x : List ℤ) → Run (meaning self.now.book.graph.now) point x → LiesIn i (of x variable)) }
        ensures stands { IfOk result (λ i. IfSome i Stands) }
        ensures life { GoesOn bounds (bound_book (meaning self.now.book.graph.now)) (ask (meaning self.now.book.graph.now)) (question (interval_of point variable)) (told (told_by shown result)) (state_of self.now.analysis) (state_of self.now.analysis) }
    {
        let upper = self.book.upper_unknown(point, variable)?;
        if !self.settled {
            return Err(Reason::NotSettled.into());
        }
        Ok(ends(self.analysis.value(upper)?, self.analysis.value(upper + 1)?))
    }
}
