// Where the value of a variable comes from at a point.
ghost use Rattle.std.specs.Prelude.{◌≡◌};
ghost use Rattle.kinds.specs.Values.{grades};
ghost use Rattle.books.specs.Entries.{values};
ghost use Rattle.strategy_theory.specs.Lives.Call.{question};
ghost use Rattle.strategy_theory.specs.Lives.Answer.{told};
ghost use Rattle.strategy_theory.specs.Promises.{GoesOn};
ghost use Rattle.solver.specs.Analyses.{state_of};
ghost use Rattle.script_equations_theory.specs.Grades.{grade_book};
ghost use Rattle.soundness_theory.specs.Questions.{ask_grades};
ghost use Rattle.soundness_theory.specs.Questions.Question.{grade_of};
ghost use Rattle.soundness_theory.specs.Questions.Told.{graded};
ghost use Rattle.script_graph.specs.Meaning.{meaning};
ghost use Rattle.sessions.specs.Answers.{asked_grade, told_by};

use crate::session::Session;
use base::{Reason, Refusal};
use kinds::Grade;
use script_books::GradeBook;

impl Session<'_, Grade, GradeBook<'_>> {
    // The grade of a variable at a point: unreached where nothing reaches the point.
    pub fn grade(&self, point: usize, variable: usize) -> Result<Grade, Refusal>
        ensures answer { result ≡ asked_grade (meaning self.now.book.graph.now) (values self.now.analysis.list.now) point variable }
        ensures life { GoesOn grades (grade_book (meaning self.now.book.graph.now)) (ask_grades (meaning self.now.book.graph.now)) (question (grade_of point variable)) (told (told_by graded result)) (state_of self.now.analysis) (state_of self.now.analysis) }
    {
        let unknown = self.book.grade_unknown(point, variable)?;
        if !self.settled {
            return Err(Reason::NotSettled.into());
        }
        self.analysis.value(unknown)
    }
}
