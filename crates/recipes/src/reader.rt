// The reader of recipe text. A text is any bytes; its lines end at byte 10, and a line's fields are parted by byte 9. A column
// counts a line's bytes from 1.
ghost use Rattle.std.specs.Prelude.{◌≡◌, ◌+◌, ◌<◌, ◌^◌, [], length};
ghost use Rattle.text.specs.Text.{before, after, parts};
ghost use Rattle.recipes.specs.Recipe.{at_column};
ghost use Rattle.recipes.specs.Reader.{slip, verb_of, past, one_field, two_fields, fields_of, line_of, lines_of, width_digit, width_line, read_of};

use super::lines::{check_line, is_width, unused, way_of};
use super::types::{LINES_MAX, Line, Recipe, Refusal, Refused, Verb, at_column, at_line};
use text::numbers::digit_of;
use text::parts::first;
use text::types::{NEWLINE, TAB};

// Why a text line is no recipe line, with the column; the line's number is added by `read_lines`.
#[derive(Clone, Copy)]
pub(crate) struct Slip {
    pub refusal: Refusal,
    pub column: usize,
}

impl Slip {
    fn at(refusal: Refusal, column: usize) -> Slip
        ensures { result ≡ slip refusal column }
    {
        Slip { refusal, column }
    }

    // As the refusal of a text line.
    fn on(self, line: usize) -> Refused
        ensures { result ≡ at_column self.refusal line self.column }
    {
        at_column(self.refusal, line, self.column)
    }
}

// What `check_line` refuses has no column.
impl From<Refusal> for Slip {
    ghost from_gives = { λ refusal s. s ≡ slip refusal 0 };

    fn from(refusal: Refusal) -> Slip {
        Slip::at(refusal, 0)
    }
}

// The verb that a field names.
#[tactic(auto, using(crate::proofs::Words::by_length), unfolding(crate::specs::Reader::verb_of, text::specs::Text::same_bytes))]
fn verb_of(field: &[u8]) -> Option<Verb>
    ensures { result ≡ verb_of field.now }
{
    match field {
        b"clear" => Some(Verb::Clear),
        b"copy" => Some(Verb::Copy),
        b"add" => Some(Verb::Add),
        b"sub" => Some(Verb::Sub),
        b"neg" => Some(Verb::Neg),
        b"not" => Some(Verb::Not),
        b"halve" => Some(Verb::Halve),
        b"down" => Some(Verb::Down),
        b"up" => Some(Verb::Up),
        _ => None,
    }
}

// The line of a verb that takes one number, from the fields behind it. The tab behind the verb has the column `at`.
fn read_one(verb: Verb, at: usize, fields: &[u8]) -> Result<Line, Slip>
    requires { at + length fields.now + 4 < 2 ^ 64 }
    ensures { result ≡ one_field verb at (parts 9 fields.now) }
{
    let column = at + 1;
    let tab = first(fields, TAB);
    if tab < fields.len() {
        let extra = column + tab + 1;
        return Err(Slip::at(Refusal::WrongFields, extra));
    }
    let a = digit_of(fields).ok_or(Slip::at(Refusal::NotADigit, column))?;
    Ok(Line { verb, a, b: 0 })
}

// The line of a verb that takes two. Apart from `read_one`: a field more means another slip and another column at each tab, and one
// function over a count would ask at each which it is.
fn read_two(verb: Verb, at: usize, fields: &[u8]) -> Result<Line, Slip>
    requires { at + length fields.now + 4 < 2 ^ 64 }
    ensures { result ≡ two_fields verb at (parts 9 fields.now) }
{
    let column = at + 1;
    let tab = first(fields, TAB);
    let behind = column + tab;
    if fields.len() <= tab {
        return Err(Slip::at(Refusal::WrongFields, behind));
    }
    let second = &fields[tab + 1..];
    let next = behind + 1;
    let end = first(second, TAB);
    if end < second.len() {
        let third = next + end + 1;
        return Err(Slip::at(Refusal::WrongFields, third));
    }
    let a = digit_of(&fields[..tab]).ok_or(Slip::at(Refusal::NotADigit, column))?;
    let b = digit_of(second).ok_or(Slip::at(Refusal::NotADigit, next))?;
    Ok(Line { verb, a, b })
}

// The verb and the numbers of a line.
fn read_fields(row: &[u8]) -> Result<Line, Slip>
    ensures { result ≡ fields_of (verb_of (before 9 row.now)) (past 0 (before 9 row.now)) (after 9 row.now) }
{
    let tab = first(row, TAB);
    let verb = verb_of(&row[..tab]).ok_or(Slip::at(Refusal::UnknownVerb, 1))?;
    let at = tab + 1;
    if row.len() <= tab {
        return Err(Slip::at(Refusal::WrongFields, at));
    }
    let fields = &row[at..];
    if way_of(verb).takes_two {
        read_two(verb, at, fields)
    } else {
        read_one(verb, at, fields)
    }
}

// A text line as a line of a recipe of so many numbers.
#[tactic(auto, using(crate::proofs::Digits::handed_on), unfolding(crate::specs::Reader::line_of))]
fn read_line(numbers: u8, row: &[u8]) -> Result<Line, Slip>
    ensures { result ≡ line_of numbers row.now }
{
    let line = read_fields(row)?;
    check_line(numbers, line)?;
    Ok(line)
}

// The width that a digit gives.
fn width_digit(digit: Option<u8>) -> Option<u8>
    ensures { result ≡ width_digit digit }
{
    digit.filter(|d| is_width(*d))
}

// The width that a first line gives.
fn read_width(row: &[u8]) -> Option<u8>
    ensures { result ≡ width_line row.now }
{
    let field = row.strip_prefix(b"width\t".as_slice())?;
    width_digit(digit_of(field))
}

// The lines after the width line. Line `count` of a recipe, from 0, is text line `count` + 2.
// By `left`: a `for` over `split_inclusive` was tried, and neither the returns nor the loop's turn closed: std has lemmas of the pieces of `split` alone.
fn read_lines(width: u8, text: &[u8]) -> Result<Recipe, Refused>
    requires { 0 < width }
    ensures { result ≡ lines_of width [] (before 10 text.now) (after 10 text.now) }
{
    let numbers = 8 / width;
    let mut lines = [unused(); LINES_MAX];
    let mut count = 0;
    let mut left = text;
    while !left.is_empty() {
        if count == LINES_MAX {
            return Err(at_line(Refusal::TooManyLines, count + 2));
        }
        let end = first(left, NEWLINE);
        if left.len() <= end {
            return Err(at_column(Refusal::NoNewline, count + 2, end + 1));
        }
        lines[count] = read_line(numbers, &left[..end]).map_err(|slip| slip.on(count + 2))?;
        count += 1;
        left = &left[end + 1..];
    }
    Ok(Recipe {
        width,
        count,
        lines,
    })
}

// Reads a recipe text: the recipe, or the first refusal with its text line and column.
pub fn read(text: &[u8]) -> Result<Recipe, Refused>
    ensures { result ≡ read_of text.now }
{
    let end = first(text, NEWLINE);
    if text.len() <= end {
        return Err(at_line(Refusal::WidthLine, 1));
    }
    let width = read_width(&text[..end]).ok_or(at_line(Refusal::WidthLine, 1))?;
    read_lines(width, &text[end + 1..])
}
