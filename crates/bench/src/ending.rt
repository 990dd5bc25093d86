// How a run ended; of one that halted, the words to go on with.
use crate::pen::{Counted, Hex, Pen};
use alu::types::Flags;
use std::fmt;
use step::registers::State;
use step::runs::{End, Ran};

// The registers of a letter that are not 0, as words that the program takes, a blank before each.
#[derive(Clone, Copy)]
pub(crate) struct Settings(pub char, pub [u32; 8]);

impl fmt::Display for Settings {
    fn fmt<W: fmt::Write>(&self, f: &mut fmt::Formatter<W>) -> fmt::Result {
        let Settings(letter, registers) = *self;
        for (r, value) in registers.iter().enumerate() {
            if *value != 0 {
                write!(f, " {letter}{r}={}", Hex(*value))?;
            }
        }
        Ok(())
    }
}

// The flags that are set, as such words.
#[derive(Clone, Copy)]
struct SetFlags(Flags);

impl fmt::Display for SetFlags {
    fn fmt<W: fmt::Write>(&self, f: &mut fmt::Formatter<W>) -> fmt::Result {
        let Flags { x, n, z, v, c } = self.0;
        for (letter, flag) in [('X', x), ('N', n), ('Z', z), ('V', v), ('C', c)] {
            if flag {
                write!(f, " {letter}=1")?;
            }
        }
        Ok(())
    }
}

// The words to go on with.
#[derive(Clone, Copy)]
pub(crate) struct GoOn(pub Ran);

impl fmt::Display for GoOn {
    fn fmt<W: fmt::Write>(&self, f: &mut fmt::Formatter<W>) -> fmt::Result {
        let from = self.0.next;
        let State { d, a, flags } = self.0.state;
        let (d, a) = (Settings('D', d), Settings('A', a));
        write!(f, "from={from}{d}{a}{}", SetFlags(flags))
    }
}

// An end by its name, with a trap's class or a refusal's number. `{:#}` says which of the two that is.
#[derive(Clone, Copy)]
pub(crate) struct Ended(pub End);

impl fmt::Display for Ended {
    fn fmt<W: fmt::Write>(&self, f: &mut fmt::Formatter<W>) -> fmt::Result {
        let (class, number) = if f.alternate() {
            (" with class", " with number")
        } else {
            ("", "")
        };
        match self.0 {
            End::Finished => write!(f, "Finished"),
            End::Budget => write!(f, "Budget"),
            End::Trapped(trap, _, _) => write!(f, "Trapped{class} {}", u32::from(trap)),
            End::Refused(fault, _, _) => write!(f, "Refused{number} {}", u32::from(fault)),
        }
    }
}

// The place of a trap or a refusal, and otherwise the next one.
fn end_place(ran: Ran) -> usize {
    match ran.end {
        End::Finished | End::Budget => ran.next,
        End::Trapped(_, place, _) | End::Refused(_, place, _) => place,
    }
}

// A text line that an end tells, counted from 1, with what stands there; 0 is none, as `End::line` of step tells it.
fn put_told(pen: &mut Pen, text: &[u8], line: u8) {
    if line != 0 {
        write!(pen, ", line {line}");
        pen.put_text_line(text, line);
    }
}

// How a run ended, and where it can go on, how.
pub(crate) fn put_ending(pen: &mut Pen, text: &[u8], ran: Ran) {
    write!(pen, "{:#} at place {}", Ended(ran.end), end_place(ran));
    put_told(pen, text, ran.end.line());
    let steps = Counted(u64::from(ran.steps), "step");
    writeln!(pen, ": {steps}, {}", Counted(ran.clocks, "clock"));
    if let End::Budget = ran.end {
        writeln!(pen, "halted: go on with {}", GoOn(ran));
    }
}
