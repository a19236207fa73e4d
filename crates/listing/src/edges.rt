// Edges: where they lead, and what they do in the words of a script.
ghost use Rattle.std.specs.Prelude.{◌≡◌, Some};
ghost use Rattle.std.proofs.Math.Utf8.{encodes};
ghost use Rattle.listing.specs.Edges.{chosen_text, sum_text, value_text, guard_text, effect_text, edge_line};
ghost use Rattle.listing.specs.Names.{named, variable_names};

use crate::parts::{Name, Span, name_at};
use language_theory::{Action, Edge, Guard, Range, Source, Value};
use parser::Variable;
use std::fmt;

// An edge with the variables that it speaks of.
#[derive(Drop)]
pub struct EdgeLine<'a> {
    pub variables: &'a [Variable],
    pub edge: &'a Edge,
}

// What an edge does.
#[derive(Drop)]
struct Effect<'a> {
    variables: &'a [Variable],
    action: Action,
}

// What an assignment sets its target to.
#[derive(Drop)]
struct Assigned<'a> {
    variables: &'a [Variable],
    value: Value,
}

// What has to hold.
#[derive(Drop)]
struct Assumed<'a> {
    variables: &'a [Variable],
    guard: Guard,
}

// Any number of a range, by the source that it comes from. A range that is written has one number.
#[derive(Drop)]
struct Chosen {
    source: Source,
    range: Range,
}

// A variable and the number that is added to it.
#[derive(Drop)]
struct Sum<'a> {
    name: Name<'a>,
    added: i64,
}

impl fmt::Display for EdgeLine<'_> {
    ghost output = { λ x. Some (edge_line (variable_names x.variables.now) x.edge.now) };

    fn fmt<W: fmt::Write>(&self, f: &mut fmt::Formatter<W>) -> fmt::Result {
        let effect = Effect {
            variables: self.variables,
            action: self.edge.action,
        };
        write!(f, "{} -> {}  {effect}", self.edge.source, self.edge.target)
    }
}

// A variable and the number that is added to it.
fn sum_at(variables: &[Variable], number: usize, added: i64) -> Sum<'_>
    ensures name { result.name.0.now ≡ named (variable_names variables.now) number }
    ensures added { result.added ≡ added }
{
    Sum {
        name: name_at(variables, number),
        added,
    }
}

impl fmt::Display for Effect<'_> {
    ghost output = { λ x. Some (effect_text (variable_names x.variables.now) x.action) };

    fn fmt<W: fmt::Write>(&self, f: &mut fmt::Formatter<W>) -> fmt::Result {
        match self.action {
            Action::Skip => f.write_str("skip"),
            Action::Assign { target, value } => {
                let value = Assigned {
                    variables: self.variables,
                    value,
                };
                write!(f, "{} := {value}", name_at(self.variables, target))
            }
            Action::Assume { guard } => {
                let guard = Assumed {
                    variables: self.variables,
                    guard,
                };
                write!(f, "{guard}")
            }
        }
    }
}

impl fmt::Display for Assigned<'_> {
    ghost output = { λ x. Some (value_text (variable_names x.variables.now) x.value) };

    fn fmt<W: fmt::Write>(&self, f: &mut fmt::Formatter<W>) -> fmt::Result {
        match self.value {
            Value::AnyOf { range, source } => write!(f, "{}", Chosen { source, range }),
            Value::TableEntry { index, range } => {
                let name = name_at(self.variables, index);
                write!(f, "any of {} (read by {name})", Span(range))
            }
            Value::Sum { variable, constant } => write!(
                f,
                "{}",
                sum_at(self.variables, variable, constant)
            ),
            Value::Negation { variable } => write!(f, "-{}", name_at(self.variables, variable)),
        }
    }
}

impl fmt::Display for Assumed<'_> {
    ghost output = { λ x. Some (guard_text (variable_names x.variables.now) x.guard) };

    fn fmt<W: fmt::Write>(&self, f: &mut fmt::Formatter<W>) -> fmt::Result {
        match self.guard {
            Guard::AtMost { variable, limit } => write!(
                f,
                "{} <= {limit}",
                name_at(self.variables, variable)
            ),
            Guard::AtLeast { variable, limit } => write!(
                f,
                "{} >= {limit}",
                name_at(self.variables, variable)
            ),
            Guard::Difference {
                left,
                right,
                distance: -1,
            } => {
                let right = name_at(self.variables, right);
                write!(f, "{} < {right}", name_at(self.variables, left))
            }
            Guard::Difference {
                left,
                right,
                distance,
            } => {
                let right = sum_at(self.variables, right, distance);
                write!(f, "{} <= {right}", name_at(self.variables, left))
            }
        }
    }
}

impl fmt::Display for Chosen {
    ghost output = { λ x. Some (chosen_text x.source x.range) };

    fn fmt<W: fmt::Write>(&self, f: &mut fmt::Formatter<W>) -> fmt::Result {
        match self.source {
            Source::Written => write!(f, "{}", self.range.low),
            Source::Sensed => write!(f, "sense {}", Span(self.range)),
            Source::Heard => write!(f, "hear {}", Span(self.range)),
        }
    }
}

impl fmt::Display for Sum<'_> {
    ghost output = { λ x. Some (sum_text (encodes x.name.0.now) x.added) };

    fn fmt<W: fmt::Write>(&self, f: &mut fmt::Formatter<W>) -> fmt::Result {
        let name = self.name;
        let size = self.added.unsigned_abs();
        match self.added {
            0 => write!(f, "{name}"),
            1.. => write!(f, "{name} + {size}"),
            _ => write!(f, "{name} - {size}"),
        }
    }
}
