// Where two solvers differ.
ghost use Rattle.std.specs.Prelude.{◌≡◌, ◌↔◌, IsNone};
ghost use Rattle.script_trials.specs.Comparisons.{AreEqual};

use reference::Results;

/// What differs first. Values are numbered point by point, findings in the order of the text; the last two are of a run that the sessions' answers do not allow.
#[derive(Clone, Copy, PartialEq, Eq, Debug)]
pub enum Difference {
    NotSettled,
    Value(usize),
    Finding(usize),
    Report,
    StateOutside,
    ReadWithoutFinding,
}

/// The number of the first place at which two lists differ.
fn first_other<T: PartialEq + Copy>(list: &[T], other: &[T]) -> usize {
    let pairs = list.iter().zip(other.iter());
    pairs.take_while(|(one, two)| **one == **two).count()
}

/// What differs first of two results.
pub fn compare(one: &Results, two: &Results) -> Option<Difference>
    ensures { IsNone result ↔ AreEqual one.now two.now }
{
    if one.values.as_slice() != two.values.as_slice() {
        return Some(Difference::Value(first_other(&one.values, &two.values)));
    }
    if one.findings.as_slice() != two.findings.as_slice() {
        return Some(Difference::Finding(first_other(&one.findings, &two.findings)));
    }
    None
}
