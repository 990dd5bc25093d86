// What is wrong with a recipe that is refused, for people: the bad line made visible, a mark below its column, and what to do.
ghost use Rattle.std.specs.Prelude.{◌+◌, ◌≤◌};

use crate::pen::{Pen, TAB, line_at};
use recipes::printer::print_refusal;
use recipes::types::{Refusal, Refused};
use std::fmt;

// The most bytes of a line that are shown; where the column lies beyond, so many of them stand before it.
const SHOWN: usize = 60;

const BEFORE: usize = 40;

// Room for that start of a line, with dots.
pub(crate) const START_ROOM: usize = SHOWN + 2;

// Room for a refusal by its numbers: a word, and three numbers of at most 20 digits. (There is no heap for a `String`.)
const REFUSAL_ROOM: usize = 80;

// Bytes as characters, one for each. A `>` that was typed is no tab, so it is not shown as one.
#[derive(Clone, Copy)]
struct Seen<'a>(&'a [u8]);

impl fmt::Display for Seen<'_> {
    fn fmt<W: fmt::Write>(&self, f: &mut fmt::Formatter<W>) -> fmt::Result {
        for b in self.0 {
            f.write_char(match *b {
                TAB => '>',
                b'>' => '?',
                32..=126 => char::from(*b),
                _ => '?',
            })?;
        }
        Ok(())
    }
}

// The first bytes of a line, and dots where it has more.
#[derive(Clone, Copy)]
pub(crate) struct Start<'a>(pub &'a [u8]);

impl fmt::Display for Start<'_> {
    fn fmt<W: fmt::Write>(&self, f: &mut fmt::Formatter<W>) -> fmt::Result {
        let all = self.0;
        let shown = &all[..all.len().min(SHOWN)];
        write!(f, "{}{}", Seen(shown), dots(SHOWN < all.len()))
    }
}

// The first place that is shown, for a mark at `here`.
fn start_for(here: usize) -> usize
    ensures { (result ≤ here) × (here ≤ result + 60) }
{
    if here < SHOWN { 0 } else { here - BEFORE }
}

fn dots(left_off: bool) -> &'static str {
    if left_off { ".." } else { "" }
}

// The line and, where the refusal has a column, the mark: column 0 is none, as `Refused` has it and C is told it.
fn put_shown(pen: &mut Pen, refused: Refused, row: &[u8]) {
    let here = refused.column.saturating_sub(1).min(row.len());
    let start = start_for(here);
    let end = row.len().min(start + SHOWN);
    write!(pen, "line {} (> is a tab): ", refused.line);
    write!(pen, "{}{}", dots(0 < start), Seen(&row[start..here]));
    let below = pen.column();
    writeln!(pen, "{}{}", Seen(&row[here..end]), dots(end < row.len()));
    if refused.column != 0 {
        pen.tab(below);
        writeln!(pen, "^");
    }
}

// What to do. It has `LINES_MAX` and `TEXT_MAX` written out.
fn advice(refusal: Refusal) -> &'static str {
    match refusal {
        Refusal::WidthLine => {
            "Make the first line the word width, one tab and 1, 2 or 4, with nothing but a line end behind."
        }
        Refusal::NoSuchNumber => {
            "Take a number that is there: 0 to 7 at width 1, 0 to 3 at width 2, 0 and 1 at width 4."
        }
        Refusal::OntoItself => {
            "Leave this line out, or copy onto another number: a copy onto itself would lose it."
        }
        Refusal::TooManyLines => {
            "Cut the recipe in two: it has at most 32 lines behind the width line."
        }
        Refusal::UnknownVerb => {
            "Begin the line with a verb and a tab: clear, copy, add, sub, neg, not, halve, down or up."
        }
        Refusal::WrongFields => {
            "Give copy, add and sub two numbers, every other verb one, each behind one tab, and nothing more."
        }
        Refusal::NotADigit => "Write one digit here, and nothing else.",
        Refusal::NoNewline => {
            "Put a line end here, as behind every line. Only the first 1,024 bytes of a text are read."
        }
        // No text is refused so.
        Refusal::NoSpace => "",
    }
}

// The refusal by its numbers.
pub(crate) fn put_refusal(pen: &mut Pen, refused: Refused) {
    let mut line = [0u8; REFUSAL_ROOM];
    let n = print_refusal(refused, &mut line);
    pen.put(line.get(..n).unwrap_or(&line));
}

pub(crate) fn put_slip(pen: &mut Pen, text: &[u8], refused: Refused) {
    put_shown(pen, refused, line_at(text, refused.line.saturating_sub(1)));
    writeln!(pen, "{}", advice(refused.refusal));
}
