// Declarations of variables and tables.
ghost use Rattle.std.specs.Prelude.{◌≡◌, true, false, ◌||◌, [], ◌∷◌, MatchResult, ◌==◌, nat_le, nat_lt};
ghost use Rattle.lexer.specs.Words.{among};
ghost use Rattle.lexer.specs.Words.Text.{reads};
ghost use Rattle.lexer.specs.Words.Word.{name};
ghost use Rattle.language_theory.specs.Graphs.{var_names, table_names};
ghost use Rattle.language_theory.specs.Expected.Expect.{just, heads};
ghost use Rattle.language_theory.specs.Expected.Terminal.{any_name};
ghost use Rattle.language_theory.specs.Readings.{begins_declaration, TurnsBack, Anywhere, AtStart, Declared, varying, tabling};
ghost use Rattle.parser.specs.Models.{left, vars_of, tabs_of};
ghost use Rattle.parser.specs.Scripts.{Halts, NewAt, StartsAt, Declares, Sizing, sizing, Ending, ending, IsNew};

use crate::script::Script;
use crate::sentence::Sentence;
use crate::side::read_range;
use crate::{Table, Variable};
use base::{Place, Reason, Refusal};
use language_theory::Range;
use lexer::Mark;
use std::alloc::Global;

// At most so many variables, and so many tables.
const MOST_NAMES: usize = 8;

// A table has at most so many entries.
const MOST_ENTRIES: u32 = 65536;

// Whether a table may not have this size.
fn wrong_size(size: u32) -> bool
    ensures { result ≡ (size == 0 || nat_lt 65536 size) }
{
    size == 0 || size > MOST_ENTRIES
}

// Takes [ size ].
fn read_size(s: &mut Sentence) -> Result<u32, Refusal>
    ensures { MatchResult result (λ c. Sizing c (left s.old) (left s.new)) (λ e. TurnsBack sizing Anywhere (left s.old) e) }
{
    s.mark(Mark::OpenBracket)?;
    let (size, place) = s.number()?;
    if wrong_size(size) {
        return Err(Refusal::at(Reason::TableSize, place));
    }
    s.mark(Mark::CloseBracket)?;
    Ok(size)
}

// Takes = range ;
fn read_ending(s: &mut Sentence) -> Result<Range, Refusal>
    ensures { MatchResult result (λ g. Ending g (left s.old) (left s.new)) (λ e. TurnsBack ending Anywhere (left s.old) e) }
{
    s.mark(Mark::Equals)?;
    let range = read_range(s)?;
    s.mark(Mark::Semicolon)?;
    Ok(range)
}

impl<'a> Script<'a> {
    // Takes a name that is not declared yet, where so many names of its sort are declared.
    fn read_new_name(&mut self, count: usize) -> Result<&'a [u8], Refusal>
        ensures { MatchResult result (λ n. (p : Place) × (left self.old.sentence ≡ reads (name n.now p) (left self.new.sentence)) × ((among n.now (var_names (vars_of self.old.names)) || among n.now (table_names (tabs_of self.old.names))) ≡ false) × (nat_le 8 count ≡ false) × (self.new.names ≡ self.old.names)) (λ e. Halts (just any_name ∷ []) (NewAt (nat_le 8 count)) self.old e) }
    {
        let (name, place) = self.sentence.name()?;
        if self.names.has(name) {
            return Err(Refusal::at(Reason::DeclaredBefore, place));
        }
        if count >= MOST_NAMES {
            return Err(Refusal::at(Reason::TooManyNames, place));
        }
        Ok(name)
    }

    // Takes var name = range ;
    fn read_variable(&mut self, heap: Global) -> Result<(), Refusal>
        ensures { MatchResult result (λ _. Declares self.old self.new) (λ e. Halts varying (StartsAt 8) self.old e) }
    {
        self.sentence.mark(Mark::Var)?;
        let count = self.names.variables.len();
        let name = self.read_new_name(count)?;
        let range = read_ending(&mut self.sentence)?;
        let name = Vec::from_slice(heap, name)?;
        self.names.variables.push(Variable { name, range })?;
        Ok(())
    }

    // Takes table name [ size ] = range ;
    fn read_table(&mut self, heap: Global) -> Result<(), Refusal>
        ensures { MatchResult result (λ _. Declares self.old self.new) (λ e. Halts tabling (StartsAt 8) self.old e) }
    {
        self.sentence.mark(Mark::Table)?;
        let count = self.names.tables.len();
        let name = self.read_new_name(count)?;
        let size = read_size(&mut self.sentence)?;
        let range = read_ending(&mut self.sentence)?;
        let name = Vec::from_slice(heap, name)?;
        self.names.tables.push(Table { name, size, range })?;
        Ok(())
    }

    // Takes a declaration, where one begins.
    fn read_declaration(&mut self, heap: Global) -> Result<(), Refusal>
        ensures { MatchResult result (λ _. Declares self.old self.new) (λ e. begins_declaration (left self.old.sentence) ≡ true → Halts (heads ∷ []) (StartsAt 8) self.old e) }
    {
        if self.sentence.at(Mark::Var) {
            self.read_variable(heap)
        } else {
            self.read_table(heap)
        }
    }

    // Takes all declarations of a script of which no name is known yet.
    pub(crate) fn read_declarations(&mut self, heap: Global) -> Result<(), Refusal>
        ensures { IsNew self.old → MatchResult result (λ _. Declared (vars_of self.new.names) (tabs_of self.new.names) (left self.old.sentence) (left self.new.sentence) × (begins_declaration (left self.new.sentence) ≡ false)) (λ e. TurnsBack (heads ∷ []) AtStart (left self.old.sentence) e) }
    {
        while self.sentence.at_declaration() {
            self.read_declaration(heap)?;
        }
        Ok(())
    }
}
