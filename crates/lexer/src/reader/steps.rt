// The next word of a script, with its place.
ghost use Rattle.std.specs.Prelude.{◌≡◌, ◌≤◌, length};
ghost use Rattle.base.specs.declared.Place.{Place};
ghost use Rattle.lexer.specs.Words.{letters_next, digits_next, text};
ghost use Rattle.lexer.specs.Reader.{word_at, found_at, as_next, Finds, Goes, ahead, leads};
ghost use Rattle.lexer.specs.Parts.{WordsStand};

use crate::bytes::{
    front, gap_length, is_digit, is_inner, is_letter, number_of, place_behind, reserved_word,
    symbol_at,
};
use crate::reader::WordReader;
use crate::{Fault, Word};
use base::{Place, Reason};

// A name has at most this many bytes.
const LONGEST_NAME: usize = 16;

// A name, or a reserved word.
fn letters(bytes: &[u8]) -> Result<Word<'_>, Reason>
    ensures { (p : Place) → word_at p result ≡ letters_next bytes.now p }
{
    if bytes.len() > LONGEST_NAME {
        return Err(Reason::NameTooLong);
    }
    Ok(match reserved_word(bytes) {
        Some(mark) => Word::Sign(mark),
        None => Word::Name(bytes),
    })
}

// A number.
fn digits(bytes: &[u8]) -> Result<Word<'_>, Reason>
    ensures { (p : Place) → word_at p result ≡ digits_next bytes.now p }
{
    let n = number_of(bytes).ok_or(Reason::NumberTooLarge)?;
    Ok(Word::Number(n))
}

// The part at the front of bytes that begin with no blank and no comment, and its length.
fn part_of(text: &[u8]) -> (Result<Option<Word<'_>>, Reason>, usize)
    ensures finds { (p : Place) → Finds text.now p result.0 result.1 }
    ensures within { result.1 ≤ length text.now }
{
    let Some(first) = text.first() else {
        return (Ok(None), 0);
    };
    if is_letter(*first) {
        let name = front(text, is_inner);
        return (letters(name).map(Some), name.len());
    }
    if is_digit(*first) {
        let number = front(text, is_digit);
        return (digits(number).map(Some), number.len());
    }
    match symbol_at(text) {
        Some((n, mark)) => (Ok(Some(Word::Sign(mark))), n),
        None => (Err(Reason::NoWord), 1),
    }
}

// What is found, with its place.
fn placed<'a>(
    found: Result<Option<Word<'a>>, Reason>,
    place: Place,
) -> Result<(Option<Word<'a>>, Place), Fault>
    ensures { as_next result ≡ found_at place found.entry }
{
    match found {
        Ok(word) => Ok((word, place)),
        Err(reason) => Err(Fault { reason, place }),
    }
}

impl<'a> WordReader<'a> {
    // A reader of the whole script.
    pub fn new(script: &'a [u8]) -> WordReader<'a>
        ensures { ahead result ≡ text script.now }
    {
        WordReader {
            rest: script,
            place: Place { line: 1, column: 1 },
        }
    }

    // The next word, or None at the end, with its place; the reader goes on behind it.
    pub fn next(&mut self) -> Result<(Option<Word<'a>>, Place), Fault>
        ensures goes { Goes self.old.rest.now self.old.place result self.new.rest.now self.new.place }
        ensures words { ahead self.old ≡ leads (as_next result) (ahead self.new) }
        ensures laws { WordsStand }
    {
        let skipped = gap_length(self.rest);
        let place = place_behind(self.place, &self.rest[..skipped]);
        let text = &self.rest[skipped..];
        let (found, n) = part_of(text);
        let answer = placed(found, place);
        let behind = place_behind(place, &text[..n]);
        self.rest = &text[n..];
        self.place = behind;
        answer
    }
}
