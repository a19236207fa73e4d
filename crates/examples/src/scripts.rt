// Scripts worked out by hand, from their text to where their bounds rest, and runs along every kind of edge.
ghost use Rattle.std.specs.Prelude.{◌≡◌};
ghost use Rattle.kinds.specs.Values.{bounds};
ghost use Rattle.language_theory.specs.Names.{Verdict};
ghost use Rattle.language_theory.specs.Names.Outcome.{drawn};
ghost use Rattle.soundness_theory.specs.Bounds.{bound_book};
ghost use Rattle.examples.specs.Systems.{ComesTo};
ghost use Rattle.examples.specs.Shown.{text_of, graph_of, rest_of, ScriptsStand};

/// Scripts whose bounds are known.
#[derive(Clone, Copy, PartialEq, Eq, Debug)]
pub enum WorkedScript {
    /// a loop that counts from 0 to 10
    CountingToTen,
    /// a loop that counts from 0 to a variable
    CountingToN,
    /// a read whose index can be too large
    ReadingATable,
}

impl WorkedScript {
    /// The text of the script.
    #[tactic(auto, using(crate::proofs::Drawings::text_drawn))]
    pub fn text(self) -> &'static str
        ensures same { result.now ≡ text_of self }
        ensures draws { Verdict result.now (drawn (graph_of self)) }
    {
        match self {
            WorkedScript::CountingToTen => "var i = 0..0; while i < 10 { i := i + 1; }",
            WorkedScript::CountingToN => "var i = 0..0; var n = 3..7; while i < n { i := i + 1; }",
            WorkedScript::ReadingATable => "var i = 0..4;\ntable cal[4] = 0..4;\ni := cal[i];\n",
        }
    }

    /// The counted rounds of its bounds from set-up to rest.
    #[tactic(auto, using(crate::proofs::ScriptsRest::rests_after, crate::proofs::Whole::scripts_stand))]
    pub fn rounds(self) -> u16
        ensures rest { ComesTo bounds (bound_book (graph_of self)) result (rest_of self) }
        ensures collection { ScriptsStand }
    {
        match self {
            WorkedScript::CountingToTen | WorkedScript::CountingToN => 6,
            WorkedScript::ReadingATable => 4,
        }
    }
}
