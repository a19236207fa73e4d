// Calls of a session on a script's bounds as values, and any list of them made in a row.
ghost use Rattle.std.specs.Prelude.{◌≡◌, length, All, IfOk, MatchResult};
ghost use Rattle.kinds.specs.Values.{bounds};
ghost use Rattle.base.specs.Reasons.{no_memory};
ghost use Rattle.strategy_theory.specs.Lives.{begun};
ghost use Rattle.strategy_theory.specs.Lives.Call.{question};
ghost use Rattle.strategy_theory.specs.Promises.{GoesOn, LivesStand};
ghost use Rattle.solver.specs.Answers.{IsUnplaced};
ghost use Rattle.solver.specs.Analyses.{state_of};
ghost use Rattle.language_theory.specs.WellFormed.{WellFormed};
ghost use Rattle.script_equations_theory.specs.Bounds.{bound_book};
ghost use Rattle.soundness_theory.specs.Kept.{RunsStand};
ghost use Rattle.soundness_theory.specs.Questions.{Question, Told, ask};
ghost use Rattle.soundness_theory.specs.Questions.Question.{findings_into};
ghost use Rattle.script_graph.specs.Meaning.{meaning};
ghost use Rattle.sessions.specs.Whole.{script_call, script_answer, script_history, LivedWhole};
ghost use Rattle.sessions.specs.declared.calls.ScriptCall.TheVariants.{Findings};

use crate::session::Session;
use base::{Place, Refusal};
use books::{Book, Entry};
use kinds::Bound;
use script_books::BoundBook;
use script_graph::graph::Graph;
use solver::{Answer, Call};
use soundness_theory::Finding;
use std::alloc::Global;

// A call of a session on a script's bounds: one of the calls of every analysis; the interval of a variable at a point; or the findings, into a list of this length.
#[derive(Clone, Copy, PartialEq, Eq, Debug)]
pub enum ScriptCall {
    Plain(Call),
    Interval(usize, usize),
    Findings(usize),
}

// What such a call answers that is not refused.
#[derive(PartialEq, Eq, Debug, Drop)]
pub enum ScriptAnswer {
    Plain(Answer<Bound>),
    Interval(Option<(Bound, Bound)>),
    Findings(Vec<Finding>),
}

// What is answered, refusals among it; the error is want of memory.
type Answered = Result<Result<ScriptAnswer, Refusal>, Refusal>;

// A finding to be written over.
const BLANK: Finding = Finding {
    point: 0,
    place: Place { line: 0, column: 0 },
    variable: 0,
    lowest: Bound::Least,
    highest: Bound::Least,
    size: 0,
};

impl Session<'_, Bound, BoundBook<'_>> {
    // The findings in a list of that length. It needs no more entries than there are table reads.
    fn list_findings(&self, heap: Global, length: usize) -> Answered
        ensures life { MatchResult result (λ r. GoesOn bounds (bound_book (meaning self.now.book.graph.now)) (ask (meaning self.now.book.graph.now)) (question (findings_into length)) (script_answer (Findings length) r) (state_of self.now.analysis) (state_of self.now.analysis)) (λ e. e ≡ no_memory) }
        ensures unplaced { IfOk result IsUnplaced }
    {
        let entries = length.min(self.book.graph().lookups().len());
        let mut list = vec![in heap; BLANK; entries]?;
        match self.findings(list.as_mut_slice()) {
            Ok(count) => {
                list.truncate(count);
                Ok(Ok(ScriptAnswer::Findings(list)))
            }
            Err(refusal) => Ok(Err(refusal)),
        }
    }

    // Makes one call.
    fn answer(&mut self, heap: Global, call: ScriptCall) -> Answered
        ensures life { MatchResult result (λ r. GoesOn bounds (bound_book (meaning self.old.book.graph.now)) (ask (meaning self.old.book.graph.now)) (script_call call) (script_answer call r) (state_of self.old.analysis) (state_of self.new.analysis)) (λ e. e ≡ no_memory) }
        ensures unplaced { IfOk result IsUnplaced }
        ensures same_book { self.new.book ≡ self.old.book }
    {
        match call {
            ScriptCall::Plain(call) => Ok(self.make(call).map(ScriptAnswer::Plain)),
            ScriptCall::Interval(point, variable) => {
                Ok(self.interval(point, variable).map(ScriptAnswer::Interval))
            }
            ScriptCall::Findings(length) => self.list_findings(heap, length),
        }
    }
}

// Makes the calls in a row in a session that has just begun, and answers each.
fn make_all(
    heap: Global,
    session: &mut Session<'_, Bound, BoundBook<'_>>,
    calls: &[ScriptCall],
) -> Result<Vec<Result<ScriptAnswer, Refusal>>, Refusal>
    ensures { MatchResult result (λ answers. (length answers.items ≡ length calls.now) × All IsUnplaced answers.items × (state_of session.old.analysis ≡ begun bounds (bound_book (meaning session.old.book.graph.now)) → LivedWhole (meaning session.old.book.graph.now) (script_history calls.now answers.items))) (λ e. e ≡ no_memory) }
{
    let mut answers = Vec::new(heap);
    for call in calls {
        let answer = session.answer(heap, *call)?;
        answers.push(answer)?;
    }
    Ok(answers)
}

// Makes the calls one after another, whatever they are, in a session on the bounds of a script, from set-up on, and answers each. The error is want of memory.
pub fn make_script_calls(
    heap: Global,
    graph: &Graph,
    calls: &[ScriptCall],
) -> Result<Vec<Result<ScriptAnswer, Refusal>>, Refusal>
    ensures whole { MatchResult result (λ answers. (length answers.items ≡ length calls.now) × All IsUnplaced answers.items × LivedWhole (meaning graph.now) (script_history calls.now answers.items)) (λ e. e ≡ no_memory) }
    ensures law { LivesStand bounds Question Told }
    ensures runs { RunsStand (meaning graph.now) }
    ensures fits { WellFormed (meaning graph.now) }
{
    let book = BoundBook::new(graph);
    let blank = Entry {
        value: Bound::Least,
        choice: None,
    };
    let mut list = vec![in heap; blank; book.count()]?;
    let mut session = Session::set_up(book, list.as_mut_slice())?;
    make_all(heap, &mut session, calls)
}
