// Conditions, and the guards that they become.
ghost use Rattle.std.specs.Prelude.{◌≡◌, [], ◌∷◌, MatchResult};
ghost use Rattle.language_theory.specs.Grammar as grammar;
ghost use Rattle.language_theory.specs.declared.Action.TheVariants.{Assume};
ghost use Rattle.parser.specs.declared.condition.Operand.TheVariants.{Against, Limit};
ghost use Rattle.language_theory.specs.Expected.Expect.{condition, operator, operand};
ghost use Rattle.language_theory.specs.Readings.{Anywhere, TurnsBack, Over, KnowsAsks, is_operator, is_operand, is_condition};
ghost use Rattle.parser.specs.Models.{left as left_of, order_of, guard_of, opposite_of, Small, SmallOperand};
ghost use Rattle.parser.specs.Scripts.{Reads, Halts, BehindOrder, operand_in, condition_in};

use crate::names::same_name;
use crate::script::Script;
use crate::sentence::Sentence;
use base::{Reason, Refusal};
use language_theory::{Action, Guard};
use lexer::Mark;

// How two values lie.
#[derive(Clone, Copy, PartialEq, Eq, Debug)]
pub enum Order {
    Below,
    AtMost,
    Above,
    AtLeast,
}

// What a variable is compared with: another, by its number, or a constant.
#[derive(Clone, Copy, PartialEq, Eq, Debug)]
pub enum Operand {
    Against(usize),
    Limit(i64),
}

// A variable compared with another or with a constant. That the constant is small is said by the clauses: as a ghost field
// of this type it would be owed by the definition `condition_of` too, and a tree's constants may be of any size.
#[derive(Clone, Copy, PartialEq, Eq, Debug)]
pub struct Condition {
    pub left: usize,
    pub order: Order,
    pub right: Operand,
}

impl<'a> Script<'a> {
    // Takes a condition.
    pub(crate) fn read_condition(&mut self) -> Result<Condition, Refusal>
        ensures { MatchResult result (λ x. (a : grammar.Condition) × (x ≡ condition_in self.old a) × SmallOperand x.right × Reads (condition ∷ []) KnowsAsks (is_condition a) self.old self.new) (λ e. Halts (condition ∷ []) KnowsAsks self.old e) }
    {
        let (name, place) = self.sentence.name()?;
        let left = self.names.variable(name, place)?;
        let order = read_operator(&mut self.sentence)?;
        let right = self.read_operand(name)?;
        Ok(Condition { left, order, right })
    }

    // Takes what the variable of the name `left` is compared with.
    fn read_operand(&mut self, left: &[u8]) -> Result<Operand, Refusal>
        ensures { MatchResult result (λ x. (v : grammar.Operand) × (x ≡ operand_in self.old v) × SmallOperand x × Reads (operand ∷ []) (BehindOrder left.now) (is_operand v) self.old self.new) (λ e. Halts (operand ∷ []) (BehindOrder left.now) self.old e) }
    {
        if self.sentence.at_name() {
            let (name, place) = self.sentence.name()?;
            let k = self.names.variable(name, place)?;
            if same_name(name, left) {
                return Err(Refusal::at(Reason::SameName, place));
            }
            return Ok(Operand::Against(k));
        }
        let (c, _) = self.sentence.constant()?;
        Ok(Operand::Limit(c))
    }
}

// Takes a comparison: one mark after another; the last by `mark`, which refuses whatever is none of them.
fn read_operator(s: &mut Sentence) -> Result<Order, Refusal>
    ensures { MatchResult result (λ x. (o : grammar.Order) × (x ≡ order_of o) × Over (operator ∷ []) Anywhere (is_operator o) (left_of s.old) (left_of s.new)) (λ e. TurnsBack (operator ∷ []) Anywhere (left_of s.old) e) }
{
    if s.accept(Mark::Less) {
        return Ok(Order::Below);
    }
    if s.accept(Mark::LessEqual) {
        return Ok(Order::AtMost);
    }
    if s.accept(Mark::Greater) {
        return Ok(Order::Above);
    }
    s.mark(Mark::GreaterEqual)?;
    Ok(Order::AtLeast)
}

impl Order {
    // The order that holds where this one does not.
    fn opposite(self) -> Order
        ensures { result ≡ opposite_of self }
    {
        match self {
            Order::Below => Order::AtLeast,
            Order::AtMost => Order::Above,
            Order::Above => Order::AtMost,
            Order::AtLeast => Order::Below,
        }
    }
}

impl Condition {
    // The guard of the edge on which the condition holds; a strict comparison with a constant moves it by one.
    pub(crate) fn holds(self) -> Action
        ensures { SmallOperand self.right → result ≡ Assume (guard_of self.left self.order self.right) }
    {
        let guard = match self.right {
            Operand::Against(other) => self.difference(other),
            Operand::Limit(limit) => self.limited(limit),
        };
        Action::Assume { guard }
    }

    // The guard against another variable.
    fn difference(self, other: usize) -> Guard
        ensures { result ≡ guard_of self.left self.order (Against other) }
    {
        let (left, right, distance) = match self.order {
            Order::Below => (self.left, other, -1),
            Order::AtMost => (self.left, other, 0),
            Order::Above => (other, self.left, -1),
            Order::AtLeast => (other, self.left, 0),
        };
        Guard::Difference {
            left,
            right,
            distance,
        }
    }

    // The guard against a constant.
    fn limited(self, limit: i64) -> Guard
        ensures { Small limit → result ≡ guard_of self.left self.order (Limit limit) }
    {
        let variable = self.left;
        match self.order {
            Order::Below => Guard::AtMost {
                variable,
                limit: limit.saturating_sub(1),
            },
            Order::AtMost => Guard::AtMost { variable, limit },
            Order::Above => Guard::AtLeast {
                variable,
                limit: limit.saturating_add(1),
            },
            Order::AtLeast => Guard::AtLeast { variable, limit },
        }
    }

    // The guard of the edge on which it fails.
    pub(crate) fn fails(self) -> Action
        ensures { SmallOperand self.right → result ≡ Assume (guard_of self.left (opposite_of self.order) self.right) }
    {
        let opposite = Condition {
            order: self.order.opposite(),
            ..self
        };
        opposite.holds()
    }
}
