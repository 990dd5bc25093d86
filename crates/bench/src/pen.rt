// Writing text by lines and columns into a lent slice, by `write!` and `writeln!`. What has no room is left off.
ghost use Rattle.std.specs.Prelude.{◌≤◌, length};

use alu::types::Flags;
use std::fmt;
use text::numbers::hex;
pub(crate) use text::types::{BLANK, NEWLINE, TAB};
use text::writers::Writer;

// A writer, and the place where its line begins.
#[derive(Drop)]
pub(crate) struct Pen<'a> {
    to: Writer<'a>,
    line: usize,
    ghost begun: { line ≤ to.at },
    ghost inside: { to.at ≤ length to.out.now },
}

impl<'a> Pen<'a> {
    pub(crate) fn new(out: &'a mut [u8]) -> Pen<'a> {
        Pen {
            to: Writer { out, at: 0 },
            line: 0,
        }
    }

    pub(crate) fn written(&self) -> &[u8] {
        &self.to.out[..self.to.at]
    }

    #[tactic(auto, unfolding(text::specs::Wrote::writing))]
    fn put_byte(&mut self, b: u8) {
        self.to.byte(b);
        if b == NEWLINE {
            self.line = self.to.at;
        }
    }

    // By bytes, as a recipe's text has them, which need not be UTF-8.
    pub(crate) fn put(&mut self, text: &[u8]) {
        for b in text {
            self.put_byte(*b);
        }
    }

    // A blank, and what stands in a line of a text, counted from 1: with blanks for its tabs.
    pub(crate) fn put_text_line(&mut self, text: &[u8], line: u8) {
        self.put_byte(BLANK);
        for b in line_at(text, usize::from(line).saturating_sub(1)) {
            self.put_byte(if *b == TAB { BLANK } else { *b });
        }
    }

    // The column that is reached, from 0.
    pub(crate) fn column(&self) -> usize {
        self.to.at - self.line
    }

    // Blanks up to a column of the line; none where it is reached.
    pub(crate) fn tab(&mut self, column: usize) {
        for _ in self.column()..column {
            self.put_byte(BLANK);
        }
    }

    // A number whose last digit stands before a column.
    pub(crate) fn put_right(&mut self, column: usize, n: u64) {
        let width = column.saturating_sub(self.column());
        write!(self, "{n:width$}");
    }

    // What `write!` and `writeln!` call. It has no error to answer.
    pub(crate) fn write_fmt<D: fmt::Display + Drop>(&mut self, text: D) {
        let _ = fmt::Write::write(self, text);
    }
}

impl fmt::Write for Pen<'_> {
    fn write_str(&mut self, s: &str) -> fmt::Result {
        self.put(s.as_bytes());
        Ok(())
    }
}

// Eight digits, those of text's `hex`.
#[derive(Clone, Copy)]
pub(crate) struct Hex(pub u32);

impl fmt::Display for Hex {
    fn fmt<W: fmt::Write>(&self, f: &mut fmt::Formatter<W>) -> fmt::Result {
        for digit in hex(self.0) {
            f.write_char(char::from(digit))?;
        }
        Ok(())
    }
}

// A number of things, with an s unless it is 1.
#[derive(Clone, Copy)]
pub(crate) struct Counted(pub u64, pub &'static str);

impl fmt::Display for Counted {
    fn fmt<W: fmt::Write>(&self, f: &mut fmt::Formatter<W>) -> fmt::Result {
        let Counted(n, what) = *self;
        let end = if n == 1 { "" } else { "s" };
        write!(f, "{n} {what}{end}")
    }
}

// The five flags, X N Z V C, as 0 or 1, with this before each.
#[derive(Clone, Copy)]
pub(crate) struct Bits(pub char, pub Flags);

impl fmt::Display for Bits {
    fn fmt<W: fmt::Write>(&self, f: &mut fmt::Formatter<W>) -> fmt::Result {
        let Bits(mark, flags) = *self;
        for flag in [flags.x, flags.n, flags.z, flags.v, flags.c] {
            write!(f, "{mark}{}", u8::from(flag))?;
        }
        Ok(())
    }
}

// Line k of a text, from 0, without its line end; of a text that has no such line, nothing.
pub(crate) fn line_at(text: &[u8], k: usize) -> &[u8] {
    text.split(|b| *b == NEWLINE).nth(k).unwrap_or(&[])
}
