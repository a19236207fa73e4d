// The right side of an assignment.
ghost use Rattle.std.specs.Prelude.{◌≡◌, ℕ, true, List, [], ◌∷◌, MatchResult};
ghost use Rattle.lexer.specs.declared.Mark.TheVariants.{Becomes, CloseBracket, OpenBracket};
ghost use Rattle.language_theory.specs.Grammar as grammar;
ghost use Rattle.language_theory.specs.Expected.{one};
ghost use Rattle.language_theory.specs.Expected.Expect.{just, span, right, behind_minus};
ghost use Rattle.language_theory.specs.Expected.Terminal.{any_name};
ghost use Rattle.language_theory.specs.Readings.{first_names, TurnsBack, Over, Quiet, KnowsNegates, is_span, is_right, is_negative, is_index};
ghost use Rattle.parser.specs.Models.{left, fixed};
ghost use Rattle.parser.specs.Scripts.{Reads, Halts, BehindMark, variable_in, side_in};

use crate::script::Script;
use crate::sentence::{Sentence, negative};
use base::{Place, Reason, Refusal};
use language_theory::{Range, Source, Value};
use lexer::Mark;

/// A table read: the number of the table with its size and its range, the number of the variable that is its index, and
/// the place of the index.
#[derive(Clone, Copy, PartialEq, Eq, Debug)]
pub struct Reading {
    pub table: usize,
    pub size: u32,
    pub range: Range,
    pub index: usize,
    pub place: Place,
}

/// A right side, by the numbers of its variables and tables: the value of an assignment, or a table read, which is
/// more than one edge.
#[derive(Clone, Copy, PartialEq, Eq, Debug)]
pub enum Side {
    Value(Value),
    Entry(Reading),
}

// A constant, as a value: a written range of one number.
fn constant(number: i64) -> Side
    ensures { result ≡ fixed number }
{
    let range = Range {
        low: number,
        high: number,
    };
    Side::Value(Value::AnyOf {
        range,
        source: Source::Written,
    })
}

// Any number of a range.
fn any_of(range: Range, source: Source) -> Side
    ensures { result ≡ Side.Value (Value.AnyOf range source) }
{
    Side::Value(Value::AnyOf { range, source })
}

// A variable and what is added to it.
fn sum(variable: usize, constant: i64) -> Side
    ensures { result ≡ Side.Value (Value.Sum variable constant) }
{
    Side::Value(Value::Sum { variable, constant })
}

// Takes const .. const.
pub(crate) fn read_range(s: &mut Sentence) -> Result<Range, Refusal>
    ensures { MatchResult result (λ g. Over (span ∷ []) Quiet (is_span g) (left s.old) (left s.new)) (λ e. TurnsBack (span ∷ []) Quiet (left s.old) e) }
{
    let (low, _) = s.constant()?;
    s.mark(Mark::Dots)?;
    let (high, place) = s.constant()?;
    if high < low {
        return Err(Refusal::at(Reason::RangeFalls, place));
    }
    Ok(Range { low, high })
}

impl<'a> Script<'a> {
    // Takes a right side.
    pub(crate) fn read_side(&mut self) -> Result<Side, Refusal>
        ensures { MatchResult result (λ x. (a : grammar.Side) × (x ≡ side_in self.old a) × Reads (right ∷ []) (BehindMark Becomes) (is_right a) self.old self.new) (λ e. Halts (right ∷ []) (BehindMark Becomes) self.old e) }
    {
        if self.sentence.at_name() {
            return self.read_named();
        }
        if self.sentence.accept(Mark::Hear) {
            return Ok(any_of(read_range(&mut self.sentence)?, Source::Heard));
        }
        if self.sentence.accept(Mark::Sense) {
            return Ok(any_of(read_range(&mut self.sentence)?, Source::Sensed));
        }
        if self.sentence.accept(Mark::Minus) {
            return self.read_negative();
        }
        let (n, _) = self.sentence.number()?;
        Ok(constant(i64::from(n)))
    }

    // Takes what follows - at the front of a right side.
    fn read_negative(&mut self) -> Result<Side, Refusal>
        ensures { MatchResult result (λ x. (a : grammar.Side) × (x ≡ side_in self.old a) × Reads (behind_minus ∷ []) KnowsNegates (is_negative a) self.old self.new) (λ e. Halts (behind_minus ∷ []) KnowsNegates self.old e) }
    {
        if self.sentence.at_name() {
            let (name, place) = self.sentence.name()?;
            let variable = self.names.variable(name, place)?;
            return Ok(Side::Value(Value::Negation { variable }));
        }
        let (n, _) = self.sentence.number()?;
        Ok(constant(negative(n)))
    }

    // Takes a right side that begins with a name, a table's exactly if [ follows.
    fn read_named(&mut self) -> Result<Side, Refusal>
        ensures { MatchResult result (λ x. (a : grammar.Side) × (x ≡ side_in self.old a) × Reads (right ∷ []) (BehindMark Becomes) (is_right a) self.old self.new) (λ e. first_names (left self.old.sentence) ≡ true → Halts (right ∷ []) (BehindMark Becomes) self.old e) }
    {
        let (name, place) = self.sentence.name()?;
        if self.sentence.accept(Mark::OpenBracket) {
            let table = self.names.table(name, place)?;
            let (size, range) = self.names.shape(table);
            let (index, place) = self.read_index()?;
            return Ok(Side::Entry(Reading {
                table,
                size,
                range,
                index,
                place,
            }));
        }
        let i = self.names.variable(name, place)?;
        // Each sign by itself: one function for both would promise three outcomes, and say no more than this.
        if self.sentence.accept(Mark::Plus) {
            let (n, _) = self.sentence.number()?;
            return Ok(sum(i, i64::from(n)));
        }
        if self.sentence.accept(Mark::Minus) {
            let (n, _) = self.sentence.number()?;
            return Ok(sum(i, negative(n)));
        }
        Ok(sum(i, 0))
    }

    // Takes the index of a table read, and its bracket; answers the index and its place.
    fn read_index(&mut self) -> Result<(usize, Place), Refusal>
        ensures { MatchResult result (λ x. (i : List ℕ) × (x.0 ≡ variable_in self.old i) × Reads (just any_name ∷ one CloseBracket ∷ []) (BehindMark OpenBracket) (is_index i x.1) self.old self.new) (λ e. Halts (just any_name ∷ one CloseBracket ∷ []) (BehindMark OpenBracket) self.old e) }
    {
        let (name, place) = self.sentence.name()?;
        let index = self.names.variable(name, place)?;
        self.sentence.mark(Mark::CloseBracket)?;
        Ok((index, place))
    }
}
