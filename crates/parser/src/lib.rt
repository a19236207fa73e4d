// Sentences and names: words in, the names and the drawing of a script out, in one pass.
#![tactic(auto)]

ghost use Rattle.language_theory.specs.Laws.{GrammarStands, VerdictsStand, GraphsStand};
ghost use Rattle.language_theory.specs.Examples.{Examples};
ghost use Rattle.parser.specs.Outlines.{Outlined};

use base::{Reason, Refusal};
use language_theory::Range;
use std::alloc::Global;

mod condition;
mod declarations;
mod drawing;
mod names;
mod script;
mod sentence;
mod side;
mod statements;

pub use drawing::Drawing;
pub use names::{Named, Names};
use script::Script;
use statements::Scribe;

// A variable, with the range of its start values.
// Its name is bytes, not a `String`: a script is bytes, and a name is part of them.
#[derive(Drop)]
pub struct Variable {
    pub name: Vec<u8>,
    pub range: Range,
}

// A table, with the range of its entries. Not one type with a variable: it has a size.
#[derive(Drop)]
pub struct Table {
    pub name: Vec<u8>,
    pub size: u32,
    pub range: Range,
}

// What a script was read as.
#[derive(Drop)]
pub struct Outline {
    pub names: Names,
    pub drawing: Drawing,
}

// A script has at most this many bytes.
pub const MOST_BYTES: usize = 8192;

// Points are numbered from 0 up to, and without, this number.
pub const MOST_POINTS: usize = 96;

// Blocks nest at most this deep.
const MOST_LEVELS: u8 = 8;

// The names and the drawing of a script, or why and where the text is none. The attribute names the theorems of the
// language that its clauses `laws` and `examples` demand.
#[tactic(auto, using(language_theory::proofs::Stands::grammar_stands, language_theory::proofs::Stands::verdicts_stand, language_theory::proofs::Stands::graphs_stand, language_theory::proofs::Shown::examples))]
pub fn read_outline(heap: Global, script: &[u8]) -> Result<Outline, Refusal>
    ensures verdict { Outlined script.now result }
    ensures laws { GrammarStands × VerdictsStand × GraphsStand }
    ensures examples { Examples }
{
    if script.len() > MOST_BYTES {
        return Err(Reason::ScriptTooLong.into());
    }
    let mut scribe = Scribe {
        script: Script::new(heap, script),
        drawing: Drawing::new(heap),
    };
    scribe.script.read_declarations(heap)?;
    scribe.read_statements(MOST_LEVELS)?;
    scribe.script.sentence.end()?;
    if let Some(place) = scribe.drawing.maker(MOST_POINTS) {
        return Err(Refusal::at(Reason::TooManyPoints, place));
    }
    Ok(Outline {
        names: scribe.script.names,
        drawing: scribe.drawing,
    })
}
