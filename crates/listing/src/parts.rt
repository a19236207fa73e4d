// Names and ranges as text.
ghost use Rattle.std.specs.Prelude.{◌≡◌, Some, map};
ghost use Rattle.std.proofs.Math.Utf8.{encodes};
ghost use Rattle.listing.specs.Edges.{span_text};
ghost use Rattle.listing.specs.Names.{named};

use language_theory::Range;
use parser::Named;
use std::fmt;

/// A name: letters, digits and _, a byte each.
#[derive(Clone, Copy)]
pub struct Name<'a>(pub &'a [u8]);

/// A range, from its least number to its greatest.
#[derive(Drop)]
pub struct Span(pub Range);

impl fmt::Display for Name<'_> {
    ghost output = { λ x. Some (encodes x.0.now) };

    fn fmt<W: fmt::Write>(&self, f: &mut fmt::Formatter<W>) -> fmt::Result {
        for byte in self.0 {
            f.write_char(char::from(*byte))?;
        }
        Ok(())
    }
}

impl fmt::Display for Span {
    ghost output = { λ x. Some (span_text x.0) };

    fn fmt<W: fmt::Write>(&self, f: &mut fmt::Formatter<W>) -> fmt::Result {
        write!(f, "{}..{}", self.0.low, self.0.high)
    }
}

/// The name of what stands under a number, or ? if there is none.
pub fn name_at<T: Named>(list: &[T], number: usize) -> Name<'_>
    ensures { result.0.now ≡ named (map T.Named.called list.now) number }
{
    match list.get(number) {
        Some(x) => Name(x.name()),
        None => Name(b"?"),
    }
}
