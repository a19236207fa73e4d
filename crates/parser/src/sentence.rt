// The present word of a script, and the words behind it.
ghost use Rattle.std.specs.Prelude.{◌≡◌, [], ◌∷◌, pos, neg_ℤ, IfOk, MatchResult};
ghost use Rattle.std.specs.Bool.{OnTrue, OnFalse};
ghost use Rattle.base.specs.declared.Place.{Place};
ghost use Rattle.lexer.specs.Words.{text};
ghost use Rattle.lexer.specs.Words.Text.{ends, reads};
ghost use Rattle.lexer.specs.Words.Word.{name, number, mark as sign};
ghost use Rattle.lexer.specs.Reader.{as_word, as_next, leads};
ghost use Rattle.language_theory.specs.Expected.{Terminal, one};
ghost use Rattle.language_theory.specs.Expected.Expect.{just, const};
ghost use Rattle.language_theory.specs.Expected.Terminal.{any_name, any_number};
ghost use Rattle.language_theory.specs.Readings.{first_is, first_names, begins_statement, begins_declaration, Anywhere, TurnsBack, Unended, Constant};
ghost use Rattle.parser.specs.Models.{left, Small};

use base::{Place, Reason, Refusal};
use lexer::reader::WordReader;
use lexer::{Fault, Mark, Word};
use std::mem;

#[derive(Drop)]
pub struct Sentence<'a> {
    words: WordReader<'a>,
    present: Result<(Option<Word<'a>>, Place), Fault>,
}

// The negative of a number.
pub(crate) fn negative(n: u32) -> i64
    ensures { result ≡ neg_ℤ (pos n) }
{
    -i64::from(n)
}

impl<'a> Sentence<'a> {
    // The whole script.
    pub(crate) fn new(script: &'a [u8]) -> Sentence<'a>
        ensures { left result ≡ text script.now }
    {
        let mut words = WordReader::new(script);
        let present = words.next();
        Sentence { words, present }
    }

    // Hands out the present word and goes on to the next.
    fn take(&mut self) -> Result<(Option<Word<'a>>, Place), Fault>
        ensures { left self.old ≡ leads (as_next result) (left self.new) }
    {
        let next = self.words.next();
        mem::replace(&mut self.present, next)
    }

    // Takes a word.
    fn word(&mut self) -> Result<(Word<'a>, Place), Refusal>
        ensures { MatchResult result (λ x. left self.old ≡ reads (as_word x.0 x.1) (left self.new)) (λ e. (f : Terminal) → TurnsBack (just f ∷ []) Anywhere (left self.old) e) }
    {
        match self.take()? {
            (Some(word), place) => Ok((word, place)),
            (None, place) => Err(Refusal::at(Reason::Unexpected, place)),
        }
    }

    // Whether the present word is this mark.
    pub(crate) fn at(&self, mark: Mark) -> bool
        ensures { result ≡ first_is mark (left self.now) }
    {
        matches!(self.present, Ok((Some(Word::Sign(present)), _)) if present == mark)
    }

    // Whether the present word is this mark, which is then passed.
    pub(crate) fn accept(&mut self, mark: Mark) -> bool
        ensures is { result ≡ first_is mark (left self.old) }
        ensures passed { OnTrue result ((p : Place) × (left self.old ≡ reads (sign mark p) (left self.new))) }
        ensures stays { OnFalse result (left self.new ≡ left self.old) }
    {
        if !self.at(mark) {
            return false;
        }
        self.present = self.words.next();
        true
    }

    // Whether the present word is a name.
    pub(crate) fn at_name(&self) -> bool
        ensures { result ≡ first_names (left self.now) }
    {
        matches!(self.present, Ok((Some(Word::Name(_)), _)))
    }

    // Whether the present word begins a statement.
    pub(crate) fn at_statement(&self) -> bool
        ensures { result ≡ begins_statement (left self.now) }
    {
        self.at_name() || self.at(Mark::If) || self.at(Mark::While)
    }

    // Whether the present word begins a declaration.
    pub(crate) fn at_declaration(&self) -> bool
        ensures { result ≡ begins_declaration (left self.now) }
    {
        self.at(Mark::Var) || self.at(Mark::Table)
    }

    // Takes this mark.
    pub(crate) fn mark(&mut self, mark: Mark) -> Result<Place, Refusal>
        ensures { MatchResult result (λ p. left self.old ≡ reads (sign mark p) (left self.new)) (λ e. TurnsBack (one mark ∷ []) Anywhere (left self.old) e) }
    {
        let (word, place) = self.word()?;
        match word {
            Word::Sign(present) if present == mark => Ok(place),
            _ => Err(Refusal::at(Reason::Unexpected, place)),
        }
    }

    // Takes a number.
    pub(crate) fn number(&mut self) -> Result<(u32, Place), Refusal>
        ensures { MatchResult result (λ x. left self.old ≡ reads (number x.0 x.1) (left self.new)) (λ e. TurnsBack (just any_number ∷ []) Anywhere (left self.old) e) }
    {
        let (word, place) = self.word()?;
        match word {
            Word::Number(n) => Ok((n, place)),
            _ => Err(Refusal::at(Reason::Unexpected, place)),
        }
    }

    // Takes a name.
    pub(crate) fn name(&mut self) -> Result<(&'a [u8], Place), Refusal>
        ensures { MatchResult result (λ x. left self.old ≡ reads (name x.0.now x.1) (left self.new)) (λ e. TurnsBack (just any_name ∷ []) Anywhere (left self.old) e) }
    {
        let (word, place) = self.word()?;
        match word {
            Word::Name(name) => Ok((name, place)),
            _ => Err(Refusal::at(Reason::Unexpected, place)),
        }
    }

    // Nothing is left.
    pub(crate) fn end(&self) -> Result<(), Refusal>
        ensures { MatchResult result (λ _. (p : Place) × (left self.now ≡ ends p)) (λ e. Unended (left self.now) e) }
    {
        match self.present? {
            (None, _) => Ok(()),
            (Some(_), place) => Err(Refusal::at(Reason::Unexpected, place)),
        }
    }

    // Takes [-] number; the place is that of the digits.
    pub(crate) fn constant(&mut self) -> Result<(i64, Place), Refusal>
        ensures read { MatchResult result (λ x. Constant x.0 x.1 (left self.old) (left self.new)) (λ e. TurnsBack (const ∷ []) Anywhere (left self.old) e) }
        ensures small { IfOk result (λ x. Small x.0) }
    {
        if self.accept(Mark::Minus) {
            let (n, place) = self.number()?;
            Ok((negative(n), place))
        } else {
            let (n, place) = self.number()?;
            Ok((i64::from(n), place))
        }
    }
}
