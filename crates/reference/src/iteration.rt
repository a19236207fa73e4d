// The one iteration of the reference solver.
use crate::extended::Extended;

/// More passes than any book or script here takes.
pub const MOST_PASSES: u32 = 1000000;

/// Rules that raise a list of values.
pub trait Rules {
    /// Applies every rule once, in turn. Says whether any value rose.
    fn apply(&self, values: &mut [Extended]) -> bool;
}

/// Applies the rules until nothing rises. Says whether that came to an end within `MOST_PASSES`.
pub fn iterate<R: Rules>(rules: &R, values: &mut [Extended]) -> bool {
    for _ in 0..MOST_PASSES {
        if !rules.apply(values) {
            return true;
        }
    }
    false
}

/// The value at an index, -inf where there is none.
pub(crate) fn value_at(values: &[Extended], index: usize) -> Extended {
    values.get(index).copied().unwrap_or(Extended::NegInf)
}

/// Raises a value to another one, unless it is as high already. Says whether it rose.
pub(crate) fn raise(values: &mut [Extended], index: usize, value: Extended) -> bool {
    let rises = index < values.len() && values[index] < value;
    if rises {
        values[index] = value;
    }
    rises
}
