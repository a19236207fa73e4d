// The words of a script: parts of the lent bytes, each with the line and column where it begins.
#![tactic(auto)]

ghost use Rattle.std.specs.Prelude.{◌≡◌, Some};
ghost use Rattle.base.specs.Reasons.{located};
ghost use Rattle.base.specs.Refusals.{refusal_line};

use base::{Place, Reason, Refusal};
use std::error::Error;
use std::fmt;

mod bytes;
pub mod reader;

/// The words of one spelling: fourteen symbols, then seven reserved words
#[derive(Clone, Copy, PartialEq, Eq, Debug)]
pub enum Mark {
    Becomes,
    Dots,
    LessEqual,
    GreaterEqual,
    Less,
    Greater,
    Equals,
    Plus,
    Minus,
    OpenBrace,
    CloseBrace,
    OpenBracket,
    CloseBracket,
    Semicolon,
    Var,
    Table,
    If,
    Else,
    While,
    Hear,
    Sense,
}

/// A word of a script; a name is the part of the bytes that spells it.
#[derive(Clone, Copy, PartialEq, Eq, Debug)]
pub enum Word<'a> {
    Name(&'a [u8]),
    Number(u32),
    Sign(Mark),
}

/// Why no word stands at a place of a script, and that place.
#[derive(Clone, Copy, PartialEq, Eq, Debug)]
pub struct Fault {
    pub reason: Reason,
    pub place: Place,
}

impl From<Fault> for Refusal {
    ghost from_gives = { λ f r. r ≡ located f.reason f.place };

    fn from(fault: Fault) -> Refusal {
        Refusal::at(fault.reason, fault.place)
    }
}

/// The line of the refusal that it becomes.
impl fmt::Display for Fault {
    ghost output = { λ f. Some (refusal_line (located f.reason f.place)) };

    fn fmt<W: fmt::Write>(&self, f: &mut fmt::Formatter<W>) -> fmt::Result {
        write!(f, "{}", Refusal::from(*self))
    }
}

impl Error for Fault {}
