// What several strokes draw together.
ghost use Rattle.std.specs.Prelude.{◌≡◌, MatchResult};
ghost use Rattle.base.specs.Reasons.{no_memory};
ghost use Rattle.language_theory.specs.Readings.{joined_at};
ghost use Rattle.parser.specs.Models.{drawn_so, assigned};
ghost use Rattle.parser.specs.declared.side.Side.TheVariants.{Entry};

use crate::drawing::Drawing;
use crate::side::{Reading, Side};
use base::{Place, Refusal};
use language_theory::{Action, Guard, Value};

impl Drawing {
    // A table read: index at least 0, index at most size - 1, then any of the table's range.
    fn look_up(&mut self, place: Place, target: usize, reading: Reading) -> Result<(), Refusal>
        ensures { MatchResult result
            (λ _. drawn_so self.new ≡ assigned place target (Entry reading) (drawn_so self.old))
            (λ e. e ≡ no_memory) }
    {
        let variable = reading.index;
        let guard = Guard::AtLeast { variable, limit: 0 };
        self.note(reading)?;
        self.onward(Action::Assume { guard }, place)?;
        let limit = i64::from(reading.size) - 1;
        let guard = Guard::AtMost { variable, limit };
        self.onward(Action::Assume { guard }, place)?;
        let value = Value::TableEntry {
            index: variable,
            range: reading.range,
        };
        self.onward(Action::Assign { target, value }, place)
    }

    // The assignment of a right side to a variable.
    pub(crate) fn assign(&mut self, place: Place, target: usize, right: Side) -> Result<(), Refusal>
        ensures { MatchResult result
            (λ _. drawn_so self.new ≡ assigned place target right (drawn_so self.old))
            (λ e. e ≡ no_memory) }
    {
        match right {
            Side::Value(value) => self.onward(Action::Assign { target, value }, place),
            Side::Entry(reading) => self.look_up(place, target, reading),
        }
    }

    // A fresh point with skips from the end of the first block and from here.
    pub(crate) fn join(&mut self, first: usize, place: Place) -> Result<(), Refusal>
        ensures { MatchResult result (λ _. drawn_so self.new ≡ joined_at place first (drawn_so self.old)) (λ e. e ≡ no_memory) }
    {
        let second = self.here;
        self.stand(first);
        self.onward(Action::Skip, place)?;
        let joined = self.here;
        self.stand(second);
        self.back(joined, place)?;
        self.stand(joined);
        Ok(())
    }
}
