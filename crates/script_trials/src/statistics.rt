// What was found in scripts, counted.
ghost use Rattle.std.specs.Prelude.{◌≡◌, ◌↔◌, IsTrue, IsSome, None};
ghost use Rattle.script_trials.specs.Trials.{Agrees};

use crate::simulation::{Observations, raised};
use crate::trial::Trial;
use reference::{Extended, Results};
use std::fmt;

/// Counts of what the reference found in scripts and of what was seen of runs, and the number of the first script in which anything differs.
#[derive(Clone, Copy, Default)]
pub struct Statistics {
    scripts: u32,
    points: u32,
    unreached: u32,
    bounded: u32,
    unbounded: u32,
    written: u32,
    sensed: u32,
    heard: u32,
    reads: u32,
    findings: u32,
    seen: Observations,
    first_different: Option<u32>,
}

fn grade_count(results: &Results, grade: i64) -> usize {
    let values = results.values.iter();
    values
        .filter(|value| value.grade == Extended::Number(grade))
        .count()
}

impl Observations {
    /// With what else was seen.
    fn and(self, other: Observations) -> Observations {
        Observations {
            runs: self.runs.saturating_add(other.runs),
            states: self.states.saturating_add(other.states),
            states_outside: self.states_outside.saturating_add(other.states_outside),
            reads: self.reads.saturating_add(other.reads),
            reads_outside: self.reads_outside.saturating_add(other.reads_outside),
            reads_unfound: self.reads_unfound.saturating_add(other.reads_unfound),
            findings: self.findings.saturating_add(other.findings),
            findings_seen: self.findings_seen.saturating_add(other.findings_seen),
        }
    }
}

impl Statistics {
    /// Whether nothing differed.
    pub fn agree(&self) -> bool
        ensures { IsTrue result ↔ (self.now.first_different ≡ None) }
    {
        self.first_different.is_none()
    }

    fn count_results(&mut self, results: &Results)
        ensures { self.new.first_different ≡ self.old.first_different }
    {
        let values = &results.values;
        let empty = values
            .iter()
            .filter(|value| value.interval.is_empty())
            .count();
        let bounded = values
            .iter()
            .filter(|value| value.interval.is_bounded())
            .count();
        let unbounded = values.len().saturating_sub(empty).saturating_sub(bounded);
        self.unreached = raised(self.unreached, empty);
        self.bounded = raised(self.bounded, bounded);
        self.unbounded = raised(self.unbounded, unbounded);
        self.written = raised(self.written, grade_count(results, 1));
        self.sensed = raised(self.sensed, grade_count(results, 2));
        self.heard = raised(self.heard, grade_count(results, 3));
        self.findings = raised(self.findings, results.findings.len());
    }

    /// Counts a script, by its number.
    pub fn add(&mut self, trial: &Trial, number: u32)
        ensures agrees { Agrees trial.now → self.new.first_different ≡ self.old.first_different }
        ensures kept { IsSome self.old.first_different → self.new.first_different ≡ self.old.first_different }
        ensures differs { ¬ Agrees trial.now → IsSome self.new.first_different }
    {
        self.scripts = raised(self.scripts, 1);
        self.points = raised(self.points, trial.graph.points());
        self.reads = raised(self.reads, trial.graph.lookups().len());
        self.count_results(trial.reference());
        self.seen = self.seen.and(trial.seen);
        if trial.difference().is_some() && self.first_different.is_none() {
            self.first_different = Some(number);
        }
    }
}

impl fmt::Display for Statistics {
    fn fmt<W: fmt::Write>(&self, f: &mut fmt::Formatter<W>) -> fmt::Result {
        let seen = self.seen;
        write!(f, "{} scripts, {} points; ", self.scripts, self.points)?;
        write!(f, "intervals: {} unreached, ", self.unreached)?;
        write!(
            f,
            "{} bounded, {} unbounded; ",
            self.bounded, self.unbounded
        )?;
        write!(f, "grades: {} written, ", self.written)?;
        write!(f, "{} sensed, {} heard; ", self.sensed, self.heard)?;
        write!(
            f,
            "{} table reads, {} findings; ",
            self.reads, self.findings
        )?;
        write!(f, "{} runs, {} states, ", seen.runs, seen.states)?;
        write!(
            f,
            "{} table reads, {} of them outside; ",
            seen.reads, seen.reads_outside
        )?;
        write!(
            f,
            "{} of {} findings were seen; ",
            seen.findings_seen, seen.findings
        )?;
        match self.first_different {
            None => f.write_str("agree"),
            Some(number) => write!(f, "WRONG, first at script {number}"),
        }
    }
}
