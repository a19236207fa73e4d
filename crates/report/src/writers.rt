// Fields and lines as text: how much room they take, and how they are written into the tail of a lent buffer.
ghost use Rattle.std.specs.Prelude.{◌≡◌, ◌-◌, ◌<◌, ◌≤◌, [], ◌∷◌, ◌++◌, length};
ghost use Rattle.std.specs.Option.{SomeIff};
ghost use Rattle.base.specs.Fronts.{Front};
ghost use Rattle.report.specs.Lines.{field_text, line_text, lines_text};

use crate::lines::Field;
use itoa::{Buffer, Integer};

// How many bytes a field takes.
fn width(field: &Field<'_>) -> usize
    ensures { result ≡ length (field_text field.now) }
{
    match *field {
        Field::Text(text) => text.len(),
        Field::Number(number) => Buffer::new().format(number).len(),
        Field::Signed(number) => Buffer::new().format(number).len(),
    }
}

// The room that is left behind a line, if there is enough. A line takes a byte for each field beside the fields, and LF at least.
#[tactic(auto, using(crate::proofs::Ended::line_length_is, crate::proofs::Ended::fields_within, std::proofs::lemmas::List::take_all))]
fn room_behind_line(line: &[Field<'_>], room: usize) -> Option<usize>
    ensures { SomeIff result (length (line_text line.now) ≤ room) (room - length (line_text line.now)) }
{
    let mut left = room.checked_sub(line.len().max(1))?;
    for field in line {
        left = left.checked_sub(width(field))?;
    }
    Some(left)
}

// The room that is left behind lines, if there is enough.
#[tactic(auto, using(crate::proofs::Joining::next_within))]
pub(crate) fn room_behind(lines: &[Vec<Field<'_>>], room: usize) -> Option<usize>
    ensures { SomeIff result (length (lines_text lines.now) ≤ room) (room - length (lines_text lines.now)) }
{
    let mut left = room;
    for line in lines {
        left = room_behind_line(line, left)?;
    }
    Some(left)
}

// Writes bytes into a tail. Answers how far they came, as all writers do.
fn write_bytes(tail: &mut [u8], bytes: &[u8]) -> usize
    requires { length bytes.now ≤ length tail.old }
    ensures { Front bytes.now tail.old tail.new result }
{
    tail[0..bytes.len()].copy_from_slice(bytes);
    bytes.len()
}

// Writes a number: all numbers of a report are written here.
fn write_number<I: Integer>(tail: &mut [u8], number: I) -> usize
    requires { length (I.Integer.text number) ≤ length tail.old }
    ensures { Front (I.Integer.text number) tail.old tail.new result }
{
    write_bytes(tail, Buffer::new().format(number).as_bytes())
}

// Writes a field.
fn write_field(tail: &mut [u8], field: &Field<'_>) -> usize
    requires { length (field_text field.now) ≤ length tail.old }
    ensures { Front (field_text field.now) tail.old tail.new result }
{
    match *field {
        Field::Text(text) => write_bytes(tail, text),
        Field::Number(number) => write_number(tail, number),
        Field::Signed(number) => write_number(tail, number),
    }
}

// Writes a field, and a byte behind it.
fn write_ended(tail: &mut [u8], field: &Field<'_>, mark: u8) -> usize
    requires { length (field_text field.now) < length tail.old }
    ensures { Front (field_text field.now ++ mark ∷ []) tail.old tail.new result }
{
    let end = write_field(tail, field);
    tail[end] = mark;
    end + 1
}

// Writes a line: its fields with one space between two, and LF.
#[tactic(auto, using(crate::proofs::Ended::next_field, crate::proofs::Ended::last_field))]
fn write_line(tail: &mut [u8], line: &[Field<'_>]) -> usize
    requires { length (line_text line.now) ≤ length tail.old }
    ensures { Front (line_text line.now) tail.old tail.new result }
{
    let Some((last, others)) = line.split_last() else {
        tail[0] = b'\n';
        return 1;
    };
    let mut end = 0;
    for field in others {
        end += write_ended(&mut tail[end..], field, b' ');
    }
    end += write_ended(&mut tail[end..], last, b'\n');
    end
}

// Writes lines, each from where the last one ended.
#[tactic(auto, using(crate::proofs::Joining::next_room))]
pub(crate) fn write_lines(buffer: &mut [u8], lines: &[Vec<Field<'_>>]) -> usize
    requires { length (lines_text lines.now) ≤ length buffer.old }
    ensures { Front (lines_text lines.now) buffer.old buffer.new result }
{
    let mut end = 0;
    for line in lines {
        end += write_line(&mut buffer[end..], line);
    }
    end
}
