// Scripts: intervals and grades at the points of a graph, passed along its edges.
ghost use Rattle.std.specs.Prelude.{◌≡◌};

use crate::extended::Extended;
use crate::interval::Interval;
use crate::iteration::{Rules, iterate, raise, value_at};
use crate::results::{AbstractValue, IndexFinding, Results};
use language_theory::{Action, Edge, Guard, Lookup, Range, Source, Value};
use script_graph::graph::Graph;
use std::alloc::{AllocError, Global};

/// What the iteration found, and whether it came to an end. Only `analyze` makes one.
#[derive(Drop)]
pub struct Analysis {
    results: Results,
    settled: bool,
}

/// The rules of a graph, for three numbers of each variable at each point: its lowest value negated, its highest value, and its grade. The first two are -inf where nothing reaches the point.
/// Along each edge what is known at its source, changed by its action, joins what is known at its target. A value above the cap is infinite.
#[derive(Clone, Copy)]
struct EdgeRules<'a> {
    graph: &'a Graph,
    cap: i64,
}

fn grade_of(source: Source) -> Extended {
    Extended::Number(match source {
        Source::Written => 1,
        Source::Sensed => 2,
        Source::Heard => 3,
    })
}

fn range_size(range: Range) -> i64 {
    range.low.saturating_abs().max(range.high.saturating_abs())
}

fn value_size(value: Value) -> i64 {
    match value {
        Value::AnyOf { range, .. } => range_size(range),
        Value::TableEntry { range, .. } => range_size(range),
        Value::Sum { constant, .. } => constant.saturating_abs(),
        Value::Negation { .. } => 0,
    }
}

fn guard_size(guard: Guard) -> i64 {
    match guard {
        Guard::AtMost { limit, .. } => limit.saturating_abs(),
        Guard::AtLeast { limit, .. } => limit.saturating_abs(),
        Guard::Difference { distance, .. } => distance.saturating_abs(),
    }
}

/// The size of the number in an action.
fn action_size(action: Action) -> i64 {
    match action {
        Action::Skip => 0,
        Action::Assign { value, .. } => value_size(value),
        Action::Assume { guard } => guard_size(guard),
    }
}

/// No finite end lies further from zero: such an end is a number of the script, moved by edges, and no edge moves it more than twice, once as a highest value and once as a lowest.
fn cap_of(graph: &Graph) -> i64 {
    let variables = graph.variables().iter();
    let declared = variables.map(|variable| range_size(variable.range));
    let actions = graph.edges().iter().map(|edge| action_size(edge.action));
    let sizes = declared.chain(actions);
    sizes.fold(0i64, |sum, size| sum.saturating_add(size.saturating_mul(2)))
}

/// The value of which these are the three numbers, from an index on.
fn triple_at(numbers: &[Extended], index: usize) -> AbstractValue {
    AbstractValue {
        interval: Interval {
            low: value_at(numbers, index).negated(),
            high: value_at(numbers, index.saturating_add(1)),
        },
        grade: value_at(numbers, index.saturating_add(2)),
    }
}

impl EdgeRules<'_> {
    /// Where the numbers of a variable at a point begin.
    fn index(&self, point: usize, variable: usize) -> usize {
        let pair = point.saturating_mul(self.graph.variables().len());
        pair.saturating_add(variable).saturating_mul(3)
    }

    fn value(&self, numbers: &[Extended], point: usize, variable: usize) -> AbstractValue {
        triple_at(numbers, self.index(point, variable))
    }

    /// The transfer function of an assignment. A value that is made of a variable has its grade.
    fn assigned(&self, numbers: &[Extended], point: usize, value: Value) -> AbstractValue {
        match value {
            Value::AnyOf { range, source } => AbstractValue {
                interval: range.into(),
                grade: grade_of(source),
            },
            Value::TableEntry { index, range } => AbstractValue {
                interval: range.into(),
                ..self.value(numbers, point, index)
            },
            Value::Sum { variable, constant } => {
                let value = self.value(numbers, point, variable);
                value.with(value.interval.plus(constant))
            }
            Value::Negation { variable } => {
                let value = self.value(numbers, point, variable);
                value.with(value.interval.negated())
            }
        }
    }

    /// The numbers that a guard lets a variable have.
    fn limits(&self, numbers: &[Extended], point: usize, guard: Guard, own: usize) -> Interval {
        let interval = |variable| self.value(numbers, point, variable).interval;
        match guard {
            Guard::AtMost { variable, limit } if variable == own => Interval::up_to(
                Extended::Number(limit),
            ),
            Guard::AtLeast { variable, limit } if variable == own => Interval::from_on(
                Extended::Number(limit),
            ),
            Guard::Difference {
                left,
                right,
                distance,
            } if left == own => Interval::up_to(interval(right).high.plus(distance)),
            Guard::Difference {
                left,
                right,
                distance,
            } if right == own => Interval::from_on(
                interval(left).low.plus(distance.saturating_neg()),
            ),
            _ => Interval::ALL,
        }
    }

    /// The transfer function of an edge: the value of a variable behind it. Guards change no grade.
    fn value_after(&self, numbers: &[Extended], edge: &Edge, own: usize) -> AbstractValue {
        let before = self.value(numbers, edge.source, own);
        match edge.action {
            Action::Assign { target, value } if target == own => self.assigned(
                numbers,
                edge.source,
                value,
            ),
            Action::Assume { guard } => {
                let limits = self.limits(numbers, edge.source, guard, own);
                before.with(before.interval.meet(limits))
            }
            _ => before,
        }
    }

    /// Whether anything can pass an edge: all variables have values before it and behind it.
    fn can_pass(&self, numbers: &[Extended], edge: &Edge) -> bool {
        (0..self.graph.variables().len()).all(|variable| {
            let before = self.value(numbers, edge.source, variable);
            let after = self.value_after(numbers, edge, variable);
            !before.interval.is_empty() && !after.interval.is_empty()
        })
    }

    /// Joins a value into that of a variable at a point. Says whether anything rose.
    fn join(&self, numbers: &mut [Extended], index: usize, value: AbstractValue) -> bool {
        let Interval { low, high } = value.interval;
        let low = raise(numbers, index, low.negated().capped(self.cap));
        let high = raise(numbers, index.saturating_add(1), high.capped(self.cap));
        let grade = raise(numbers, index.saturating_add(2), value.grade);
        low || high || grade
    }

    /// The declared ranges, at the first point.
    fn declare(&self, numbers: &mut [Extended]) {
        for (number, variable) in self.graph.variables().iter().enumerate() {
            let value = AbstractValue {
                interval: variable.range.into(),
                grade: grade_of(Source::Written),
            };
            self.join(numbers, self.index(0, number), value);
        }
    }

    /// Goes along an edge. Says whether anything rose.
    fn pass(&self, numbers: &mut [Extended], edge: &Edge) -> bool {
        let can_pass = self.can_pass(numbers, edge);
        let mut rose = false;
        for variable in 0..self.graph.variables().len() {
            let mut value = self.value_after(numbers, edge, variable);
            if !can_pass {
                value.interval = Interval::EMPTY;
            }
            rose |= self.join(numbers, self.index(edge.target, variable), value);
        }
        rose
    }
}

impl Rules for EdgeRules<'_> {
    fn apply(&self, numbers: &mut [Extended]) -> bool {
        let mut rose = false;
        for edge in self.graph.edges() {
            rose |= self.pass(numbers, edge);
        }
        rose
    }
}

/// The values of all variables, point by point.
fn values_of(alloc: Global, numbers: &[Extended]) -> Result<Vec<AbstractValue>, AllocError> {
    let mut values = Vec::new(alloc);
    for pair in 0..numbers.len() / 3 {
        values.push(triple_at(numbers, 3 * pair))?;
    }
    Ok(values)
}

/// The finding of a table read, if its index may fall outside.
fn finding_of(graph: &Graph, results: &Results, lookup: &Lookup) -> Option<IndexFinding> {
    let interval = results.value(lookup.point, lookup.index).interval;
    let size = graph.tables().get(lookup.table)?.size;
    let finding = IndexFinding {
        point: lookup.point,
        place: lookup.place,
        variable: lookup.index,
        interval,
        size,
    };
    (!interval.is_empty() && !interval.fits_table(size)).then_some(finding)
}

/// What is known of a script's graph, by iteration from below.
pub fn analyze(alloc: Global, graph: &Graph) -> Result<Analysis, AllocError> {
    let cap = cap_of(graph);
    let rules = EdgeRules { graph, cap };
    let count = rules.index(graph.points(), 0);
    let mut numbers = vec![in alloc; Extended::NegInf; count]?;
    rules.declare(numbers.as_mut_slice());
    let settled = iterate(&rules, numbers.as_mut_slice());
    let mut results = Results {
        variables: graph.variables().len(),
        values: values_of(alloc, &numbers)?,
        findings: Vec::new(alloc),
    };
    let finding = |lookup: &Lookup| finding_of(graph, &results, lookup);
    results.findings = graph.lookups().iter().filter_map(finding).collect(alloc)?;
    Ok(Analysis { results, settled })
}

impl Analysis {
    pub fn results(&self) -> &Results
        ensures { result.now ≡ self.now.results }
    {
        &self.results
    }

    pub fn is_settled(&self) -> bool
        ensures { result ≡ self.now.settled }
    {
        self.settled
    }
}
