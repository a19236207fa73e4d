// The lines of a report, each as its fields.
ghost use Rattle.std.specs.Prelude.{◌≡◌, map, decimal, MatchResult};
ghost use Rattle.kinds.specs.Values.{rank_of};
ghost use Rattle.kinds.specs.Texts.{bound_text};
ghost use Rattle.base.specs.Reasons.{no_memory};
ghost use Rattle.report_theory.specs.Texts.{head_fields, row_fields, found_fields, end_fields};
ghost use Rattle.report_theory.specs.Reports.{row, found};
ghost use Rattle.report.specs.Lines.{field_text};

use base::Refusal;
use kinds::{Bound, Grade};
use soundness_theory::Finding;
use std::alloc::Global;

// A field of a line: a word of the format or a name, or a number.
#[derive(Clone, Copy)]
pub(crate) enum Field<'a> {
    Text(&'a [u8]),
    Number(usize),
    Signed(i64),
}

// The field of a bound.
fn bound_field(bound: Bound) -> Field<'static>
    ensures { field_text result ≡ bound_text bound }
{
    match bound {
        Bound::Least => Field::Text(b"-inf"),
        Bound::Whole(number) => Field::Signed(number),
        Bound::Greatest => Field::Text(b"+inf"),
    }
}

// The field of a grade.
fn grade_field(grade: Grade) -> Field<'static>
    ensures { field_text result ≡ decimal (rank_of grade) }
{
    Field::Number(usize::from(grade.rank()))
}

// The first line: the count of points, and the counted rounds of the bounds.
pub(crate) fn head_line(
    heap: Global,
    points: usize,
    rounds: u16,
) -> Result<Vec<Field<'static>>, Refusal>
    ensures { MatchResult result (λ l. map field_text l.items ≡ head_fields points rounds) (λ e. e ≡ no_memory) }
{
    let rounds = Field::Number(usize::from(rounds));
    Ok(vec![in heap;
        Field::Text(b"points"),
        Field::Number(points),
        Field::Text(b"rounds"),
        rounds,
    ]?)
}

// The line of a variable at a point: its interval and its grade, or that nothing reaches the point.
pub(crate) fn row_line<'a>(
    heap: Global,
    point: usize,
    name: &'a [u8],
    interval: Option<(Bound, Bound)>,
    grade: Grade,
) -> Result<Vec<Field<'a>>, Refusal>
    ensures { MatchResult result (λ l. map field_text l.items ≡ row_fields (row point name.now interval grade)) (λ e. e ≡ no_memory) }
{
    let (point, name, grade) = (Field::Number(point), Field::Text(name), grade_field(grade));
    match interval {
        Some((lowest, highest)) => Ok(vec![in heap;
            point,
            name,
            bound_field(lowest),
            bound_field(highest),
            grade,
        ]?),
        None => Ok(vec![in heap; point, name, Field::Text(b"none")]?),
    }
}

// The line of a finding, with the name and the grade of its index.
pub(crate) fn found_line<'a>(
    heap: Global,
    finding: Finding,
    name: &'a [u8],
    grade: Grade,
) -> Result<Vec<Field<'a>>, Refusal>
    ensures { MatchResult result (λ l. map field_text l.items ≡ found_fields (found finding name.now grade)) (λ e. e ≡ no_memory) }
{
    Ok(vec![in heap;
        Field::Text(b"range"),
        Field::Number(finding.place.line),
        Field::Number(finding.place.column),
        Field::Text(name),
        bound_field(finding.lowest),
        bound_field(finding.highest),
        Field::Number(finding.size as usize),
        grade_field(grade),
    ]?)
}

// The last line: the count of findings.
pub(crate) fn end_line(heap: Global, findings: usize) -> Result<Vec<Field<'static>>, Refusal>
    ensures { MatchResult result (λ l. map field_text l.items ≡ end_fields findings) (λ e. e ≡ no_memory) }
{
    Ok(vec![in heap; Field::Text(b"end"), Field::Number(findings)]?)
}
