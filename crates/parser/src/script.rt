// A script as it is read.
ghost use Rattle.std.specs.Prelude.{◌≡◌};
ghost use Rattle.lexer.specs.Words.{text};
ghost use Rattle.parser.specs.Models.{left};
ghost use Rattle.parser.specs.Scripts.{IsNew};

use crate::names::Names;
use crate::sentence::Sentence;
use std::alloc::Global;

// The words that are left, and the names that are declared.
#[derive(Drop)]
pub struct Script<'a> {
    pub sentence: Sentence<'a>,
    pub names: Names,
}

impl<'a> Script<'a> {
    // The whole script, before its first word.
    pub(crate) fn new(heap: Global, script: &'a [u8]) -> Script<'a>
        ensures words { left result.sentence ≡ text script.now }
        ensures names { IsNew result }
    {
        Script {
            sentence: Sentence::new(script),
            names: Names::new(heap),
        }
    }
}
