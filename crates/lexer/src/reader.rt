// A script read word by word.
ghost use Rattle.std.specs.Prelude.{◌+◌, ◌^◌, ◌≤◌, length};

use base::Place;

mod steps;

// The bytes that are left, and the place where they begin. Lines and columns of all that is left fit.
#[derive(Drop)]
pub struct WordReader<'a> {
    rest: &'a [u8],
    place: Place,
    ghost lines: { place.line + length rest.now ≤ 2 ^ 63 },
    ghost columns: { place.column + length rest.now ≤ 2 ^ 63 },
}
