// Random runs of a script, held against what is known of it.
ghost use Rattle.std.specs.Prelude.{◌≡◌, count_by, IfOk};
ghost use Rattle.soundness_theory.specs.Runs.{of};
ghost use Rattle.script_trials.specs.Simulations.{more, has_finding, is_inside, is_outside, is_unfound, Looks, GoesOn, Observed};

use crate::random::Random;
use base::Place;
use language_theory::{Action, Edge, Guard, Lookup, Value};
use reference::Results;
use script_graph::graph::Graph;
use std::alloc::{AllocError, Global};

/// How often a script is run, and for how many steps at most.
#[derive(Clone, Copy)]
pub struct RunLimits {
    pub runs: u32,
    pub steps: u32,
}

/// What was seen of runs: states and those with a value outside its interval; table reads, those outside their table, and those among them without a finding; findings, and those whose read was seen outside.
#[derive(Clone, Copy, Default)]
pub struct Observations {
    pub runs: u32,
    pub states: u32,
    pub states_outside: u32,
    pub reads: u32,
    pub reads_outside: u32,
    pub reads_unfound: u32,
    pub findings: u32,
    pub findings_seen: u32,
}

/// A point, and the values of the variables there.
#[derive(Clone, Copy)]
struct State {
    point: usize,
    values: [i64; 8],
}

/// What runs are held against.
#[derive(Clone, Copy)]
struct RunChecker<'a> {
    graph: &'a Graph,
    results: &'a Results,
}

pub fn raised(count: u32, number: usize) -> u32
    ensures { result ≡ more number count }
{
    count.saturating_add(u32::try_from(number).unwrap_or(u32::MAX))
}

fn has_finding(results: &Results, place: Place) -> bool
    ensures { result ≡ has_finding results.now.findings.items place }
{
    results
        .findings
        .iter()
        .any(|finding| finding.place == place)
}

impl State {
    fn value(&self, variable: usize) -> i64
        ensures { result ≡ of self.now.values variable }
    {
        self.values.get(variable).copied().unwrap_or(0)
    }

    fn set(&mut self, variable: usize, value: i64) {
        if variable < self.values.len() {
            self.values[variable] = value;
        }
    }

    /// A start of a script: any numbers of the declared ranges.
    fn start(graph: &Graph, random: &mut Random) -> State {
        let mut state = State {
            point: 0,
            values: [0; 8],
        };
        for (number, variable) in graph.variables().iter().enumerate() {
            state.set(number, random.of_range(variable.range));
        }
        state
    }

    fn holds(&self, guard: Guard) -> bool {
        match guard {
            Guard::AtMost { variable, limit } => self.value(variable) <= limit,
            Guard::AtLeast { variable, limit } => self.value(variable) >= limit,
            Guard::Difference {
                left,
                right,
                distance,
            } => self.value(left) <= self.value(right).saturating_add(distance),
        }
    }

    fn can_take(&self, edge: &Edge) -> bool {
        edge.source == self.point
            && match edge.action {
                Action::Assume { guard } => self.holds(guard),
                Action::Skip | Action::Assign { .. } => true,
            }
    }

    fn assign(&mut self, target: usize, value: Value, random: &mut Random) {
        let number = match value {
            Value::AnyOf { range, .. } | Value::TableEntry { range, .. } => random.of_range(range),
            Value::Sum { variable, constant } => self.value(variable).saturating_add(constant),
            Value::Negation { variable } => self.value(variable).saturating_neg(),
        };
        self.set(target, number);
    }

    /// Goes along the first edge that can be taken. Says whether there is one.
    fn step(&mut self, edges: &[Edge], random: &mut Random) -> bool {
        let Some(edge) = edges.iter().find(|edge| self.can_take(edge)) else {
            return false;
        };
        if let Action::Assign { target, value } = edge.action {
            self.assign(target, value, random);
        }
        self.point = edge.target;
        true
    }
}

impl RunChecker<'_> {
    fn is_inside(&self, state: &State) -> bool
        ensures { result ≡ is_inside self.now.graph.now self.now.results.now state.now }
    {
        (0..self.graph.variables().len()).all(|variable| {
            let known = self.results.value(state.point, variable);
            known.interval.contains(state.value(variable))
        })
    }

    /// Whether a table is read at a state, outside of it.
    fn is_outside(&self, state: &State, lookup: &Lookup) -> bool
        ensures { result ≡ is_outside self.now.graph.now state.now lookup.now }
    {
        let size = self
            .graph
            .tables()
            .get(lookup.table)
            .map_or(0, |table| table.size);
        let index = state.value(lookup.index);
        lookup.point == state.point && !(0 <= index && index < i64::from(size))
    }

    /// Whether a table is read at a state, outside of it and without a finding.
    fn is_unfound(&self, state: &State, lookup: &Lookup) -> bool
        ensures { result ≡ is_unfound self.now.graph.now self.now.results.now state.now lookup.now }
    {
        self.is_outside(state, lookup) && !has_finding(self.results, lookup.place)
    }

    fn unfound_reads(&self, state: &State) -> usize
        ensures { result ≡ count_by (is_unfound self.now.graph.now self.now.results.now state.now)
            self.now.graph.now.lookups.items }
    {
        let lookups = self.graph.lookups().iter();
        lookups
            .filter(|lookup| self.is_unfound(state, lookup))
            .count()
    }

    /// Counts the table reads at a state, and notes which are outside.
    fn count_reads(&self, state: &State, seen: &mut Observations, outside: &mut [bool])
        ensures { seen.new ≡ record seen.old {
          reads = seen.new.reads;
          reads_outside = seen.new.reads_outside;
        } }
    {
        for (number, lookup) in self.graph.lookups().iter().enumerate() {
            if lookup.point == state.point {
                seen.reads = raised(seen.reads, 1);
            }
            if self.is_outside(state, lookup) && number < outside.len() {
                seen.reads_outside = raised(seen.reads_outside, 1);
                outside[number] = true;
            }
        }
    }

    /// Looks at a state of a run.
    fn look(&self, state: &State, seen: &mut Observations, outside: &mut [bool])
        ensures { Looks self.now.graph.now self.now.results.now state.now seen.old seen.new }
    {
        let unfound = self.unfound_reads(state);
        let is_wrong = usize::from(!self.is_inside(state));
        self.count_reads(state, seen, outside);
        seen.states = raised(seen.states, 1);
        seen.states_outside = raised(seen.states_outside, is_wrong);
        seen.reads_unfound = raised(seen.reads_unfound, unfound);
    }

    fn run(&self, steps: u32, random: &mut Random, seen: &mut Observations, outside: &mut [bool])
        ensures { GoesOn self.now.graph.now self.now.results.now steps seen.old seen.new }
    {
        seen.runs = raised(seen.runs, 1);
        let mut state = State::start(self.graph, random);
        for _ in 0..steps {
            self.look(&state, seen, outside);
            if !state.step(self.graph.edges(), random) {
                break;
            }
        }
    }
}

/// Runs a script of which so much is known, by numbers drawn from a seed.
pub fn observe(
    alloc: Global,
    graph: &Graph,
    results: &Results,
    seed: u32,
    limits: RunLimits,
) -> Result<Observations, AllocError>
    ensures { IfOk result (Observed graph.now results.now limits) }
{
    let checker = RunChecker { graph, results };
    let mut random = Random::new(seed);
    let mut seen = Observations::default();
    let mut outside = vec![in alloc; false; graph.lookups().len()]?;
    for _ in 0..limits.runs {
        checker.run(limits.steps, &mut random, &mut seen, &mut outside);
    }
    seen.findings = raised(0, results.findings.len());
    seen.findings_seen = raised(0, outside.iter().filter(|was| **was).count());
    Ok(seen)
}
