// A script that is tried.
ghost use Rattle.std.specs.Prelude.{◌≡◌, ◌↔◌, string_bytes, IsNone, IfOk};
ghost use Rattle.report.specs.Scripts.{ReportOf};
ghost use Rattle.script_trials.specs.Sessions.{AnswersOf};
ghost use Rattle.script_trials.specs.ReportLines.{report_text as expected_text};
ghost use Rattle.script_trials.specs.Simulations.{Observed};
ghost use Rattle.script_trials.specs.Trials.{Agrees};

use crate::comparison::{Difference, compare};
use crate::report_lines::expected_report;
use crate::session_results::{SessionResults, session_results};
use crate::simulation::{Observations, RunLimits, observe};
use base::Refusal;
use reference::{Analysis, Results, analyze};
use report::report_text;
use script_graph::graph::Graph;
use std::alloc::Global;
use std::fmt;

/// What the reference and what sessions say of a script, its report and what the reference expects there, and what was seen of random runs.
#[derive(Drop)]
pub struct Trial {
    pub graph: Graph,
    reference: Analysis,
    sessions: SessionResults,
    report: Vec<u8>,
    expected: String,
    pub seen: Observations,
}

impl Trial {
    /// Tries the script of a text, by runs that are drawn from a seed.
    pub fn new(alloc: Global, script: &[u8], seed: u32, limits: RunLimits) -> Result<Trial, Refusal>
        ensures sessions { IfOk result (λ t. AnswersOf t.graph t.sessions) }
        ensures report { IfOk result (λ t. ReportOf script.now t.report.items) }
        ensures expected { IfOk result (λ t. string_bytes t.expected ≡ expected_text t.graph t.reference.results t.sessions.rounds) }
        ensures runs { IfOk result (λ t. Observed t.graph t.sessions.results limits t.seen) }
    {
        let graph = script_graph::read(alloc, script)?;
        let reference = analyze(alloc, &graph)?;
        let sessions = session_results(alloc, &graph)?;
        let report = report_text(alloc, script)?;
        let expected = expected_report(alloc, &graph, reference.results(), sessions.rounds)?;
        let seen = observe(alloc, &graph, &sessions.results, seed, limits)?;
        Ok(Trial {
            graph,
            reference,
            sessions,
            report,
            expected,
            seen,
        })
    }

    pub fn reference(&self) -> &Results {
        self.reference.results()
    }

    /// What differs first, if anything does.
    pub fn difference(&self) -> Option<Difference>
        ensures { IsNone result ↔ Agrees self.now }
    {
        if !self.reference.is_settled() {
            return Some(Difference::NotSettled);
        }
        if let Some(difference) = compare(&self.sessions.results, self.reference.results()) {
            return Some(difference);
        }
        if self.report.as_slice() != self.expected.as_bytes() {
            return Some(Difference::Report);
        }
        if self.seen.states_outside > 0 {
            return Some(Difference::StateOutside);
        }
        if self.seen.reads_unfound > 0 {
            return Some(Difference::ReadWithoutFinding);
        }
        None
    }
}

impl fmt::Display for Trial {
    fn fmt<W: fmt::Write>(&self, f: &mut fmt::Formatter<W>) -> fmt::Result {
        let points = self.graph.points();
        let rounds = self.sessions.rounds;
        let reads = self.graph.lookups().len();
        let findings = &self.reference.results().findings;
        write!(f, "points {points}, rounds {rounds}, table reads {reads}, ")?;
        write!(f, "findings {}; ", findings.len())?;
        match self.difference() {
            None => f.write_str("agree")?,
            Some(difference) => write!(f, "WRONG: {difference:?}")?,
        }
        for finding in findings {
            write!(f, "\n  {finding}")?;
        }
        Ok(())
    }
}
