// What stands at the front of some bytes: blanks and comments, names, numbers, symbols.
ghost use Rattle.std.specs.Prelude.{◌≡◌, ℕ, ◌≤◌, Bool, false, length};
ghost use Rattle.lexer.specs.Gaps.{in_comment};
ghost use Rattle.lexer.specs.Words.{letter, digit, inner, skipped, commenting, gap, run, onward, behind, value, reserved, reserved_in, symbols, symbol_in};
ghost use Rattle.lexer.specs.Reader.{Room, sized, within};

use crate::Mark;
use base::Place;

// A number is at most this.
const MOST_NUMBER: u32 = 2147483647;

// Whether a name may begin with it.
pub(crate) fn is_letter(b: u8) -> bool
    ensures { result ≡ letter b }
{
    b.is_ascii_lowercase()
}

// Whether a number may begin with it.
pub(crate) fn is_digit(b: u8) -> bool
    ensures { result ≡ digit b }
{
    b.is_ascii_digit()
}

// Whether it may stand inside a name.
pub(crate) fn is_inner(b: u8) -> bool
    ensures { result ≡ inner b }
{
    is_letter(b) || is_digit(b) || b == b'_'
}

// What a byte that may be skipped stands in.
#[derive(Clone, Copy, PartialEq, Eq, Debug)]
pub(crate) enum Gap {
    Blanks,
    Comment,
}

impl Gap {
    // Whether a byte is skipped here.
    fn skips(self, b: u8) -> bool
        ensures { result ≡ skipped (in_comment self) b }
    {
        self == Gap::Comment || matches!(b, b' ' | b'\t' | b'\r' | b'\n' | b'#')
    }

    // What the byte after a skipped one stands in.
    fn after(self, b: u8) -> Gap
        ensures { in_comment result ≡ commenting (in_comment self) b }
    {
        match (self, b) {
            (Gap::Comment, b'\n') => Gap::Blanks,
            (Gap::Comment, _) | (Gap::Blanks, b'#') => Gap::Comment,
            (Gap::Blanks, _) => Gap::Blanks,
        }
    }
}

// How many bytes of blanks and comments stand at the front.
pub(crate) fn gap_length(bytes: &[u8]) -> usize
    ensures { (result ≡ length (gap false bytes.now)) × (result ≤ length bytes.now) }
{
    let mut gap = Gap::Blanks;
    for (n, b) in bytes.iter().enumerate() {
        if !gap.skips(*b) {
            return n;
        }
        gap = gap.after(*b);
    }
    bytes.len()
}

// The longest beginning whose bytes all pass the test.
pub(crate) fn front<F: Fn(u8) -> bool>(bytes: &[u8], test: F) -> &[u8]
    requires { F.IsAlwaysCallable test }
    ensures { (f : ℕ → Bool) → ((b : ℕ) (r : Bool) → F.post test b r → r ≡ f b) → result.now ≡ run f bytes.now }
{
    for (n, b) in bytes.iter().enumerate() {
        if !test(*b) {
            return &bytes[..n];
        }
    }
    bytes
}

// The place one byte on.
fn onward_from(place: Place, b: u8) -> Place
    ensures { Room place 1 → result ≡ onward b place }
{
    if b == b'\n' {
        Place {
            line: place.line.saturating_add(1),
            column: 1,
        }
    } else {
        Place {
            line: place.line,
            column: place.column.saturating_add(1),
        }
    }
}

// The place behind some bytes.
pub(crate) fn place_behind(place: Place, bytes: &[u8]) -> Place
    ensures { Room place (length bytes.now) → result ≡ behind bytes.now place }
{
    let mut at = place;
    for b in bytes {
        at = onward_from(at, *b);
    }
    at
}

// The value of digits, if it is at most MOST_NUMBER.
pub(crate) fn number_of(digits: &[u8]) -> Option<u32>
    ensures { result ≡ within 2147483647 (value 0 digits.now) }
{
    let mut n: u32 = 0;
    for d in digits {
        n = n
            .checked_mul(10)?
            .checked_add(u32::from(d.saturating_sub(b'0')))?;
    }
    (n <= MOST_NUMBER).then_some(n)
}

// The reserved word of this spelling.
pub(crate) fn reserved_word(bytes: &[u8]) -> Option<Mark>
    ensures { result ≡ reserved_in reserved bytes.now }
{
    match bytes {
        b"var" => Some(Mark::Var),
        b"table" => Some(Mark::Table),
        b"if" => Some(Mark::If),
        b"else" => Some(Mark::Else),
        b"while" => Some(Mark::While),
        b"hear" => Some(Mark::Hear),
        b"sense" => Some(Mark::Sense),
        _ => None,
    }
}

// The longest symbol at the front, with its length.
pub(crate) fn symbol_at(bytes: &[u8]) -> Option<(usize, Mark)>
    ensures { result ≡ sized (symbol_in symbols bytes.now) }
{
    match bytes {
        [b':', b'=', ..] => Some((2, Mark::Becomes)),
        [b'.', b'.', ..] => Some((2, Mark::Dots)),
        [b'<', b'=', ..] => Some((2, Mark::LessEqual)),
        [b'>', b'=', ..] => Some((2, Mark::GreaterEqual)),
        [b'<', ..] => Some((1, Mark::Less)),
        [b'>', ..] => Some((1, Mark::Greater)),
        [b'=', ..] => Some((1, Mark::Equals)),
        [b'+', ..] => Some((1, Mark::Plus)),
        [b'-', ..] => Some((1, Mark::Minus)),
        [b'{', ..] => Some((1, Mark::OpenBrace)),
        [b'}', ..] => Some((1, Mark::CloseBrace)),
        [b'[', ..] => Some((1, Mark::OpenBracket)),
        [b']', ..] => Some((1, Mark::CloseBracket)),
        [b';', ..] => Some((1, Mark::Semicolon)),
        _ => None,
    }
}
