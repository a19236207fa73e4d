// The alternatives of an upper bound, and of a lower bound negated, by what the edge does.
ghost use Rattle.std.specs.Prelude.{◌≡◌, ◌<◌, neg_ℤ};
ghost use Rattle.language_theory.specs.WellFormed.{ConstantFits, ValueFits, GuardFits, ActionFits};
ghost use Rattle.script_equations_theory.specs.Bounds.{copied as copied_of, given as given_for, can_hold as can_hold_at, upper_assigned as upper_assigned_at, upper_assumed as upper_assumed_at, upper_of as upper_for, lower_assigned as lower_assigned_at, lower_assumed as lower_assumed_at, lower_of as lower_for};

use crate::start::Start;
use books::{Alternative, Term, Terms, Test};
use kinds::Bound;
use language_theory::{Action, Guard, Value};

// An alternative of a bound.
pub(crate) type Choice = Alternative<Bound, i64>;

// A constant of a script, negated.
pub(crate) fn negated(constant: i64) -> i64
    requires { ConstantFits constant }
    ensures { result ≡ neg_ℤ constant }
{
    -constant
}

// The alternative that is always this unknown.
fn copied(unknown: usize) -> Choice
    ensures { result ≡ copied_of unknown }
{
    Alternative::shifted(unknown, 0)
}

// A constant for a variable, where the start is reached.
fn given(start: Start, variable: usize, constant: i64) -> Choice
    requires { variable < start.variables }
    ensures { result ≡ given_for start.variables start.point variable constant }
{
    Alternative {
        test: Test::Joint(
            start.upper(variable),
            start.lower(variable),
            Bound::Whole(0),
        ),
        terms: Terms::One(Term::Constant(Bound::Whole(constant))),
    }
}

// Whether a guard can hold.
fn can_hold(start: Start, guard: Guard) -> Test<Bound>
    requires { GuardFits start.variables guard }
    ensures { result ≡ can_hold_at start.variables start.point guard }
{
    match guard {
        Guard::AtMost { variable, limit } => Test::Single(
            start.lower(variable),
            Bound::Whole(negated(limit)),
        ),
        Guard::AtLeast { variable, limit } => Test::Single(
            start.upper(variable),
            Bound::Whole(limit),
        ),
        Guard::Difference {
            left,
            right,
            distance,
        } => Test::Joint(
            start.lower(left),
            start.upper(right),
            Bound::Whole(negated(distance)),
        ),
    }
}

// The upper bound of a variable behind its assignment.
fn upper_assigned(start: Start, target: usize, value: Value) -> Choice
    requires named { target < start.variables }
    requires fits { ValueFits start.variables value }
    ensures { result ≡ upper_assigned_at start.variables start.point target value }
{
    match value {
        Value::AnyOf { range, .. } => given(start, target, range.high),
        Value::TableEntry { range, .. } => given(start, target, range.high),
        Value::Sum { variable, constant } => Alternative::shifted(start.upper(variable), constant),
        Value::Negation { variable } => copied(start.lower(variable)),
    }
}

// Its lower bound, negated.
fn lower_assigned(start: Start, target: usize, value: Value) -> Choice
    requires named { target < start.variables }
    requires fits { ValueFits start.variables value }
    ensures { result ≡ lower_assigned_at start.variables start.point target value }
{
    match value {
        Value::AnyOf { range, .. } => given(start, target, negated(range.low)),
        Value::TableEntry { range, .. } => given(start, target, negated(range.low)),
        Value::Sum { variable, constant } => Alternative::shifted(
            start.lower(variable),
            negated(constant),
        ),
        Value::Negation { variable } => copied(start.upper(variable)),
    }
}

// The upper bound of a variable, and what a guard that limits it from above says.
fn upper_assumed(start: Start, variable: usize, guard: Guard) -> Terms<Bound, i64>
    requires named { variable < start.variables }
    requires fits { GuardFits start.variables guard }
    ensures { result ≡ upper_assumed_at start.variables start.point variable guard }
{
    let own = Term::Shifted(start.upper(variable), 0);
    match guard {
        Guard::AtMost {
            variable: limited,
            limit,
        } if variable == limited => Terms::Two(own, Term::Constant(Bound::Whole(limit))),
        Guard::Difference {
            left,
            right,
            distance,
        } if variable == left => Terms::Two(own, Term::Shifted(start.upper(right), distance)),
        Guard::AtMost { .. } | Guard::AtLeast { .. } | Guard::Difference { .. } => Terms::One(own),
    }
}

// The lower bound of a variable, negated, and what a guard that limits it from below says.
fn lower_assumed(start: Start, variable: usize, guard: Guard) -> Terms<Bound, i64>
    requires named { variable < start.variables }
    requires fits { GuardFits start.variables guard }
    ensures { result ≡ lower_assumed_at start.variables start.point variable guard }
{
    let own = Term::Shifted(start.lower(variable), 0);
    match guard {
        Guard::AtLeast {
            variable: limited,
            limit,
        } if variable == limited => Terms::Two(own, Term::Constant(Bound::Whole(negated(limit)))),
        Guard::Difference {
            left,
            right,
            distance,
        } if variable == right => Terms::Two(own, Term::Shifted(start.lower(left), distance)),
        Guard::AtMost { .. } | Guard::AtLeast { .. } | Guard::Difference { .. } => Terms::One(own),
    }
}

// The upper bound of a variable behind an edge.
pub(crate) fn upper_of(start: Start, variable: usize, action: Action) -> Choice
    requires named { variable < start.variables }
    requires fits { ActionFits start.variables action }
    ensures { result ≡ upper_for start.variables start.point variable action }
{
    match action {
        Action::Assign { target, value } if variable == target => upper_assigned(
            start, target, value,
        ),
        Action::Skip | Action::Assign { .. } => copied(start.upper(variable)),
        Action::Assume { guard } => Alternative {
            test: can_hold(start, guard),
            terms: upper_assumed(start, variable, guard),
        },
    }
}

// The lower bound of a variable, negated, behind an edge.
pub(crate) fn lower_of(start: Start, variable: usize, action: Action) -> Choice
    requires named { variable < start.variables }
    requires fits { ActionFits start.variables action }
    ensures { result ≡ lower_for start.variables start.point variable action }
{
    match action {
        Action::Assign { target, value } if variable == target => lower_assigned(
            start, target, value,
        ),
        Action::Skip | Action::Assign { .. } => copied(start.lower(variable)),
        Action::Assume { guard } => Alternative {
            test: can_hold(start, guard),
            terms: lower_assumed(start, variable, guard),
        },
    }
}
