// Statements go straight into the drawing.
ghost use Rattle.std.specs.Prelude.{◌≡◌, ℕ, true, false, [], ◌∷◌, MatchResult};
ghost use Rattle.language_theory.specs.Expected.Expect.{body, block, else_part};
ghost use Rattle.language_theory.specs.Readings.{begins_statement, Stated, Statement, Blocked, Elsed, assigning, choosing, repeating};
ghost use Rattle.parser.specs.Models.{left};
ghost use Rattle.parser.specs.Scripts.{Halts, Writes, StartsAt, InnerAt};

use crate::drawing::Drawing;
use crate::script::Script;
use base::{Reason, Refusal};
use language_theory::Action;
use lexer::Mark;

// A script as it is read, and what is drawn of it so far.
#[derive(Drop)]
pub struct Scribe<'a> {
    pub script: Script<'a>,
    pub drawing: Drawing,
}

impl<'a> Scribe<'a> {
    // Takes name := side ;
    fn read_assignment(&mut self) -> Result<(), Refusal>
        ensures { MatchResult result (λ _. (l : ℕ) → Writes Statement l self.old self.new) (λ e. (l : ℕ) → Halts assigning (StartsAt l) self.old.script e) }
    {
        let (name, place) = self.script.sentence.name()?;
        let k = self.script.names.variable(name, place)?;
        self.script.sentence.mark(Mark::Becomes)?;
        let right = self.script.read_side()?;
        self.script.sentence.mark(Mark::Semicolon)?;
        self.drawing.assign(place, k, right)
    }

    // Takes if condition block [else block].
    #[cycle(nesting)]
    fn read_choice(&mut self, levels: u8) -> Result<(), Refusal>
        ensures { MatchResult result (λ _. Writes Statement levels self.old self.new) (λ e. Halts choosing (StartsAt levels) self.old.script e) }
    {
        let place = self.script.sentence.mark(Mark::If)?;
        let start = self.drawing.here;
        let c = self.script.read_condition()?;
        self.drawing.onward(c.holds(), place)?;
        self.read_block(levels)?;
        let first = self.drawing.here;
        self.drawing.stand(start);
        self.drawing.onward(c.fails(), place)?;
        self.read_else(levels)?;
        self.drawing.join(first, place)
    }

    // Takes [else block].
    #[cycle(nesting)]
    fn read_else(&mut self, levels: u8) -> Result<(), Refusal>
        ensures { MatchResult result (λ _. Writes Elsed levels self.old self.new) (λ e. Halts (else_part ∷ []) (StartsAt levels) self.old.script e) }
    {
        if self.script.sentence.accept(Mark::Else) {
            return self.read_block(levels);
        }
        Ok(())
    }

    // Takes while condition block.
    #[cycle(nesting)]
    fn read_repetition(&mut self, levels: u8) -> Result<(), Refusal>
        ensures { MatchResult result (λ _. Writes Statement levels self.old self.new) (λ e. Halts repeating (StartsAt levels) self.old.script e) }
    {
        let place = self.script.sentence.mark(Mark::While)?;
        let c = self.script.read_condition()?;
        self.drawing.onward(Action::Skip, place)?;
        let head = self.drawing.here;
        self.drawing.onward(c.holds(), place)?;
        self.read_block(levels)?;
        self.drawing.back(head, place)?;
        self.drawing.stand(head);
        self.drawing.onward(c.fails(), place)
    }

    // Takes { statements }; blocks may nest so many levels from here on.
    #[cycle(nesting)]
    fn read_block(&mut self, levels: u8) -> Result<(), Refusal>
        ensures { MatchResult result (λ _. Writes Blocked levels self.old self.new) (λ e. Halts (block ∷ []) (InnerAt levels) self.old.script e) }
    {
        let place = self.script.sentence.mark(Mark::OpenBrace)?;
        if levels == 0 {
            return Err(Refusal::at(Reason::TooDeep, place));
        }
        self.read_statements(levels - 1)?;
        self.script.sentence.mark(Mark::CloseBrace)?;
        Ok(())
    }

    // Takes a statement, where one begins.
    #[cycle(nesting)]
    fn read_statement(&mut self, levels: u8) -> Result<(), Refusal>
        ensures { MatchResult result (λ _. Writes Statement levels self.old self.new) (λ e. begins_statement (left self.old.script.sentence) ≡ true → Halts (body ∷ []) (StartsAt levels) self.old.script e) }
    {
        if self.script.sentence.at(Mark::If) {
            self.read_choice(levels)
        } else if self.script.sentence.at(Mark::While) {
            self.read_repetition(levels)
        } else {
            self.read_assignment()
        }
    }

    // Takes statements up to a word that begins none. Blocks may nest so many levels deeper.
    #[cycle(nesting)]
    pub(crate) fn read_statements(&mut self, levels: u8) -> Result<(), Refusal>
        ensures { MatchResult result (λ _. Writes Stated levels self.old self.new × (begins_statement (left self.new.script.sentence) ≡ false)) (λ e. Halts (body ∷ []) (StartsAt levels) self.old.script e) }
    {
        while self.script.sentence.at_statement() {
            self.read_statement(levels)?;
        }
        Ok(())
    }
}
