// Where an edge starts.
ghost use Rattle.std.specs.Prelude.{◌<◌, ◌≤◌};

// The point where an edge starts, with the number of variables: it tells the unknowns of each variable there.
#[derive(Clone, Copy)]
pub(crate) struct Start {
    pub variables: usize,
    pub point: usize,
    ghost few_variables: { variables ≤ 8 },
    ghost few_points: { point < 96 },
}
