// The report of a script as the reference would write it.
ghost use Rattle.std.specs.Prelude.{◌≡◌, ◌++◌, string_bytes, IfOk, OnOk};
ghost use Rattle.script_trials.specs.ReportLines.{line_at, finding_text, point_lines, rows_text, findings_text, report_text};

use base::Place;
use listing::parts::{Name, name_at};
use reference::{AbstractValue, Extended, IndexFinding, Interval, Results};
use script_graph::graph::Graph;
use std::alloc::{AllocError, Global};
use std::fmt::Write;

/// Adds the line of a variable at a point.
fn add_row(
    lines: &mut String,
    graph: &Graph,
    results: &Results,
    point: usize,
    variable: usize,
) -> Result<(), AllocError>
    ensures { OnOk result (string_bytes lines.new ≡ string_bytes lines.old ++ line_at graph.now results.now point variable) }
{
    let name = name_at(graph.variables(), variable);
    let AbstractValue { interval, grade } = results.value(point, variable);
    let Interval { low, high } = interval;
    match high {
        Extended::NegInf => writeln!(lines, "{point} {name} none"),
        _ => writeln!(lines, "{point} {name} {low} {high} {grade}"),
    }
}

fn add_finding(
    lines: &mut String,
    finding: &IndexFinding,
    name: Name<'_>,
    grade: Extended,
) -> Result<(), AllocError>
    ensures { OnOk result (string_bytes lines.new ≡ string_bytes lines.old ++ finding_text finding.now name.entry.0.now grade) }
{
    let Place { line, column } = finding.place;
    let Interval { low, high } = finding.interval;
    let size = finding.size;
    writeln!(
        lines,
        "range {line} {column} {name} {low} {high} {size} {grade}"
    )
}

fn add_point(
    lines: &mut String,
    graph: &Graph,
    results: &Results,
    point: usize,
) -> Result<(), AllocError>
    ensures { OnOk result (string_bytes lines.new ≡ string_bytes lines.old ++ point_lines graph.now results.now point) }
{
    for variable in 0..graph.variables().len() {
        add_row(lines, graph, results, point, variable)?;
    }
    Ok(())
}

fn add_points(lines: &mut String, graph: &Graph, results: &Results) -> Result<(), AllocError>
    ensures { OnOk result (string_bytes lines.new ≡ string_bytes lines.old ++ rows_text graph.now results.now) }
{
    for point in 0..graph.points() {
        add_point(lines, graph, results, point)?;
    }
    Ok(())
}

fn add_findings(lines: &mut String, graph: &Graph, results: &Results) -> Result<(), AllocError>
    ensures { OnOk result (string_bytes lines.new ≡ string_bytes lines.old ++ findings_text graph.now results.now) }
{
    for finding in &results.findings {
        let name = name_at(graph.variables(), finding.variable);
        let grade = results.value(finding.point, finding.variable).grade;
        add_finding(lines, finding, name, grade)?;
    }
    Ok(())
}

/// The text of the report of a script with these results, after so many rounds of the bounds.
pub fn expected_report(
    alloc: Global,
    graph: &Graph,
    results: &Results,
    rounds: u16,
) -> Result<String, AllocError>
    ensures { IfOk result (λ text. string_bytes text ≡ report_text graph.now results.now rounds) }
{
    let mut lines = String::new(alloc);
    writeln!(lines, "points {} rounds {rounds}", graph.points())?;
    add_points(&mut lines, graph, results)?;
    add_findings(&mut lines, graph, results)?;
    writeln!(lines, "end {}", results.findings.len())?;
    Ok(lines)
}
