// From a script's bytes to its graph.
#![tactic(auto)]

ghost use Rattle.language_theory.specs.Laws.{GrammarStands, VerdictsStand, GraphsStand};
ghost use Rattle.script_graph.specs.Meaning.{ReadsAs};

use base::Refusal;
use parser::{Outline, read_outline};
use std::alloc::Global;

pub mod graph;

use graph::Graph;

// The graph of a script, or why and where the text is none.
pub fn read(heap: Global, script: &[u8]) -> Result<Graph, Refusal>
    ensures verdict { ReadsAs script.now result }
    ensures laws { GrammarStands × VerdictsStand × GraphsStand }
{
    let Outline { names, drawing } = read_outline(heap, script)?;
    graph::finish(heap, names, drawing)
}
