// Why a call turns back: the reason, which has a number and a phase, and the place in the script, if there is one.
#![tactic(auto)]

ghost use Rattle.std.specs.Prelude.{◌≡◌, Some};
ghost use Rattle.base.specs.Reasons.{number_of, phase_of, text_of, located, nowhere, no_memory};
ghost use Rattle.base.specs.Refusals.{refusal_line};

use std::alloc::{AllocError, AllocFailed};
use std::error::Error;
use std::fmt;

mod slice_list;

pub use slice_list::SliceList;

/// A place in a script: its line and its column, both from 1. A column is a byte, and a line ends with LF.
#[derive(Clone, Copy, PartialEq, Eq, Debug)]
pub struct Place {
    pub line: usize,
    pub column: usize,
}

/// The phase of the program that turned back.
#[derive(Clone, Copy, PartialEq, Eq, Debug)]
pub enum Phase {
    Words,
    Sentence,
    Names,
    Graph,
    Solving,
    Output,
    Memory,
}

/// The rule that failed, with the number that the crew looks up. docs/REFUSALS.md tells each with an example.
#[derive(Clone, Copy, PartialEq, Eq, Debug)]
pub enum Reason {
    ScriptTooLong = 1,
    NoWord = 2,
    NumberTooLarge = 3,
    NameTooLong = 4,
    Unexpected = 5,
    TooDeep = 6,
    DeclaredBefore = 7,
    Undeclared = 8,
    RangeFalls = 9,
    TableSize = 10,
    SameName = 11,
    TooManyNames = 12,
    TooManyPoints = 13,
    NotThere = 30,
    NotSettled = 31,
    BudgetTooLarge = 32,
    ListTooShort = 33,
    BufferTooShort = 40,
    OutOfMemory = 90,
}

impl Reason {
    /// The number that the crew looks up.
    pub fn number(self) -> u8
        ensures { result ≡ number_of self }
    {
        self as u8
    }

    /// The phase that keeps the rule.
    pub fn phase(self) -> Phase
        ensures { result ≡ phase_of self }
    {
        match self {
            Reason::ScriptTooLong | Reason::NoWord | Reason::NumberTooLarge | Reason::NameTooLong =>
                Phase::Words,
            Reason::Unexpected | Reason::TooDeep => Phase::Sentence,
            Reason::DeclaredBefore
            | Reason::Undeclared
            | Reason::RangeFalls
            | Reason::TableSize
            | Reason::SameName
            | Reason::TooManyNames => Phase::Names,
            Reason::TooManyPoints => Phase::Graph,
            Reason::NotThere | Reason::NotSettled | Reason::BudgetTooLarge | Reason::ListTooShort =>
                Phase::Solving,
            Reason::BufferTooShort => Phase::Output,
            Reason::OutOfMemory => Phase::Memory,
        }
    }
}

impl Phase {
    /// The word that is printed for the phase.
    pub fn text(self) -> &'static str
        ensures { result.now ≡ text_of self }
    {
        match self {
            Phase::Words => "words",
            Phase::Sentence => "sentence",
            Phase::Names => "names",
            Phase::Graph => "graph",
            Phase::Solving => "solving",
            Phase::Output => "output",
            Phase::Memory => "memory",
        }
    }
}

impl fmt::Display for Phase {
    ghost output = { λ p. Some (text_of p) };

    fn fmt<W: fmt::Write>(&self, f: &mut fmt::Formatter<W>) -> fmt::Result {
        f.write_str(self.text())
    }
}

/// A refused call: the reason, and the place where the script is at fault, if it is.
#[derive(Clone, Copy, PartialEq, Eq, Debug)]
pub struct Refusal {
    pub reason: Reason,
    pub place: Option<Place>,
}

impl Refusal {
    /// A refusal at a place of the script.
    pub fn at(reason: Reason, place: Place) -> Refusal
        ensures { result ≡ located reason place }
    {
        Refusal {
            reason,
            place: Some(place),
        }
    }
}

/// The line that is printed: the phase, the number, the line and the column, 0 0 where there is no place.
impl fmt::Display for Refusal {
    ghost output = { λ r. Some (refusal_line r) };

    fn fmt<W: fmt::Write>(&self, f: &mut fmt::Formatter<W>) -> fmt::Result {
        let phase = self.reason.phase();
        let number = self.reason.number();
        let (line, column) = self
            .place
            .map_or((0, 0), |place| (place.line, place.column));
        write!(f, "refused {phase} {number} {line} {column}")
    }
}

impl Error for Refusal {}

/// A refusal that is about no place of a script.
impl From<Reason> for Refusal {
    ghost from_gives = { λ reason r. r ≡ nowhere reason };

    fn from(reason: Reason) -> Refusal {
        Refusal {
            reason,
            place: None,
        }
    }
}

impl From<AllocError> for Refusal {
    ghost from_gives = { λ _ r. r ≡ no_memory };

    fn from(_e: AllocError) -> Refusal {
        Reason::OutOfMemory.into()
    }
}

// Written twice: the library has two errors for want of memory, and they are not instances of one type.
impl<T: Drop> From<AllocFailed<T>> for Refusal {
    ghost from_gives = { λ _ r. r ≡ no_memory };

    fn from(_e: AllocFailed<T>) -> Refusal {
        Reason::OutOfMemory.into()
    }
}
