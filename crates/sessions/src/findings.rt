// Which table reads may fall outside.
ghost use Rattle.std.specs.Prelude.{◌≡◌, true, List, ℤ, pos, ◌-ℤ◌, length, OnOk, IsOkAnd, ◌≤◌, MatchResult};
ghost use Rattle.kinds.specs.Values.{bounds, under};
ghost use Rattle.kinds.specs.declared.bound.Bound.TheVariants.{Whole};
ghost use Rattle.books.specs.Entries.{values};
ghost use Rattle.strategy_theory.specs.Lives.Call.{question};
ghost use Rattle.strategy_theory.specs.Lives.Answer.{told};
ghost use Rattle.strategy_theory.specs.Promises.{GoesOn};
ghost use Rattle.solver.specs.Analyses.{state_of};
ghost use Rattle.language_theory.specs.declared.Lookup.{Lookup};
ghost use Rattle.language_theory.specs.WellFormed.{LookupFits};
ghost use Rattle.script_equations_theory.specs.Bounds.{bound_book};
ghost use Rattle.soundness_theory.specs.Runs.{OutsideRead};
ghost use Rattle.soundness_theory.specs.Findings.{found_of, findings as findings_of, FindingOf};
ghost use Rattle.soundness_theory.specs.Kept.{Listed};
ghost use Rattle.soundness_theory.specs.Questions.{ask};
ghost use Rattle.soundness_theory.specs.Questions.Question.{findings_into};
ghost use Rattle.soundness_theory.specs.declared.Finding.{Finding};
ghost use Rattle.script_graph.specs.Meaning.{meaning};
ghost use Rattle.sessions.specs.Answers.{FilledIn, NotFilled, told_findings};

use crate::session::Session;
use base::{Reason, Refusal, SliceList};
use kinds::Bound;
use language_theory::Lookup;
use script_books::BoundBook;
use soundness_theory::Finding;

// Whether a highest value is at most the last index of a table.
fn is_within(highest: Bound, size: u32) -> bool
    ensures { result ≡ under highest (Whole (pos size -ℤ pos 1)) }
{
    highest <= Bound::Whole(i64::from(size) - 1)
}

impl Session<'_, Bound, BoundBook<'_>> {
    // The finding of a table read, if it has one.
    fn finding(&self, lookup: Lookup) -> Option<Finding>
        requires { LookupFits (meaning self.now.book.graph.now) lookup }
        ensures { self.now.settled ≡ true → result ≡ found_of (meaning self.now.book.graph.now) (values self.now.analysis.list.now) lookup }
    {
        let (lowest, highest) = self.interval(lookup.point, lookup.index).ok().flatten()?;
        let size = self.book.graph().tables()[lookup.table].size;
        if Bound::Whole(0) <= lowest && is_within(highest, size) {
            return None;
        }
        Some(Finding {
            point: lookup.point,
            place: lookup.place,
            variable: lookup.index,
            lowest,
            highest,
            size,
        })
    }

    // How many findings there are.
    fn count_findings(&self) -> usize
        ensures { self.now.settled ≡ true → result ≡ length (findings_of (meaning self.now.book.graph.now) (values self.now.analysis.list.now)) }
    {
        let mut count = 0;
        for lookup in self.book.graph().lookups() {
            if self.finding(*lookup).is_some() {
                count += 1;
            }
        }
        count
    }

    // Fills a list with the findings, if there is room for them.
    fn fill(&self, list: &mut [Finding]) -> Result<usize, Refusal>
        ensures { self.now.settled ≡ true → length (findings_of (meaning self.now.book.graph.now) (values self.now.analysis.list.now)) ≤ length list.old → IsOkAnd result (λ n. FilledIn (meaning self.now.book.graph.now) (values self.now.analysis.list.now) list.old list.new n) }
    {
        let mut filled = SliceList::new(list);
        for lookup in self.book.graph().lookups() {
            if let Some(finding) = self.finding(*lookup) {
                filled.push(finding)?;
            }
        }
        Ok(filled.count())
    }

    // Fills the front of a list with the table reads that may fall outside, in the order of the text. Answers how many there are.
    #[tactic(auto, using(soundness_theory::proofs::Listing::listed))]
    pub fn findings(&self, list: &mut [Finding]) -> Result<usize, Refusal>
        ensures answer { MatchResult result (λ n. FilledIn (meaning self.now.book.graph.now) (values self.now.analysis.list.now) list.old list.new n) (λ e. NotFilled (meaning self.now.book.graph.now) (values self.now.analysis.list.now) list.old list.new e) }
        ensures exact { Listed (meaning self.now.book.graph.now) (values self.now.analysis.list.now) }
        ensures complete { OnOk result ((l : Lookup) (x : List ℤ) → OutsideRead (meaning self.now.book.graph.now) l x → (f : Finding) × FindingOf (meaning self.now.book.graph.now) (values self.now.analysis.list.now) l f) }
        ensures life { GoesOn bounds (bound_book (meaning self.now.book.graph.now)) (ask (meaning self.now.book.graph.now)) (question (findings_into (length list.old))) (told (told_findings list.new result)) (state_of self.now.analysis) (state_of self.now.analysis) }
    {
        if !self.settled {
            return Err(Reason::NotSettled.into());
        }
        if list.len() < self.count_findings() {
            return Err(Reason::ListTooShort.into());
        }
        self.fill(list)
    }
}
