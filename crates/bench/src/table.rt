// A run as a table: all numbers at the start; of each step its place, the step, the text line that it comes from, the register
// that it changed, the flags, the clocks so far, and the number that it works on; all numbers at the end, and how it ended.
use crate::carry::put_carries;
use crate::course::{Done, Run, line_of};
use crate::ending::{Settings, put_ending};
use crate::numbers::{Number, longs_of, put_numbering};
use crate::pen::{Bits, Counted, Hex, NEWLINE, Pen, TAB};
use crate::words::Asked;
use alu::types::Flags;
use recipes::lines::target;
use recipes::printer::print_step;
use recipes::types::Recipe;
use std::fmt;
use step::forms::Step;
use step::runs::Ran;

// Where the columns begin; of place, clocks and number, which stand to the right, where they end.
const PLACE: usize = 5;

const STEP: [usize; 4] = [7, 12, 14, 17];

// Room for a step's line: a place of at most 20 digits, and less than 40 bytes behind it. (There is no heap for a `String`.)
const STEP_ROOM: usize = 64;

const LINE: usize = 21;

const CHANGED: usize = 34;

const FLAGS: usize = 47;

const CLOCKS: usize = 64;

const NUMBER: usize = 72;

const WORDS: usize = 74;

// A recipe's width and lines, and the number of its steps.
#[derive(Clone, Copy)]
pub(crate) struct Sizes<'a>(pub &'a Recipe, pub usize);

impl fmt::Display for Sizes<'_> {
    fn fmt<W: fmt::Write>(&self, f: &mut fmt::Formatter<W>) -> fmt::Result {
        let width = self.0.width;
        let lines = Counted(self.0.count as u64, "line");
        let steps = Counted(self.1 as u64, "step");
        write!(f, "width {width}, {lines}, {steps}")
    }
}

// The heading of the columns, up to the value's, which stands behind the words.
const HEADING: &[u8] =
    b"place  step          line         changed      X N Z V C  clocks  number  words";

fn put_heading(pen: &mut Pen, width: u8) {
    pen.put(HEADING);
    pen.tab(WORDS + 1 + 9 * usize::from(width));
    writeln!(pen, "value");
}

// Number k by its digit, its words and its value.
fn put_number(pen: &mut Pen, k: usize, number: Number) {
    pen.put_right(NUMBER, k as u64);
    pen.tab(WORDS - 1);
    writeln!(pen, "{number}  {}", number.value());
}

// The flags and the clocks so far.
fn put_flags_and_clocks(pen: &mut Pen, flags: Flags, clocks: u64) {
    pen.tab(FLAGS - 1);
    write!(pen, "{}", Bits(' ', flags));
    pen.put_right(CLOCKS, clocks);
}

// How a run stands at its start or its end: all numbers, a row for each.
fn put_standing(pen: &mut Pen, name: &str, width: u8, ran: Ran) {
    write!(pen, "{name}");
    put_flags_and_clocks(pen, ran.state.flags, ran.clocks);
    let numbers = ran.state.d.chunks(longs_of(width));
    for (k, longs) in numbers.enumerate() {
        put_number(pen, k, Number(longs));
    }
}

// A step's fields, from its line as it is printed: the place stands before them.
fn put_step(pen: &mut Pen, place: usize, step: Step) {
    let mut line = [0u8; STEP_ROOM];
    print_step(place as u64, step, &mut line);
    pen.put_right(PLACE, place as u64);
    let fields = line.split(|b| matches!(*b, TAB | NEWLINE));
    for (column, field) in STEP.iter().zip(fields.skip(1)) {
        pen.tab(*column);
        pen.put(field);
    }
}

// The first register that differs, with its new value.
fn put_changed(pen: &mut Pen, before: &[u32; 8], after: &[u32; 8]) {
    pen.tab(CHANGED);
    let mut registers = before.iter().zip(after).enumerate();
    match registers.find(|(_, (old, new))| old != new) {
        Some((r, (_, value))) => write!(pen, "D{r} {}", Hex(*value)),
        None => write!(pen, "-"),
    }
}

// What is shown: a run of a recipe, beside its text.
#[derive(Clone, Copy)]
pub(crate) struct Shown<'a> {
    pub text: &'a [u8],
    pub recipe: &'a Recipe,
    pub run: Run<'a>,
}

impl<'a> Shown<'a> {
    pub(crate) fn new(
        text: &'a [u8],
        recipe: &'a Recipe,
        listing: &'a [Step],
        asked: Asked,
    ) -> Shown<'a> {
        let run = Run { listing, asked };
        Shown { text, recipe, run }
    }

    // What stands above the start.
    fn put_top(&self, pen: &mut Pen) {
        let width = self.recipe.width;
        writeln!(pen, "{}", Sizes(self.recipe, self.run.listing.len()));
        put_numbering(pen, width);
        let a = self.run.asked.state.a;
        if a != [0; 8] {
            let set = Settings('A', a);
            writeln!(pen, "address registers, which no step changes:{set}");
        }
        writeln!(pen);
        put_heading(pen, width);
    }

    // A text line: its number, from 1, and what stands there.
    fn put_text(&self, pen: &mut Pen, line: u8) {
        pen.put_right(LINE + 2, u64::from(line));
        pen.put_text_line(self.text, line);
    }

    // The row of a step.
    fn put_row(&self, pen: &mut Pen, done: Done) {
        let step = done.step;
        let after = done.after;
        put_step(pen, done.before.next, step);
        self.put_text(pen, step.line);
        put_changed(pen, &done.before.state.d, &after.state.d);
        put_flags_and_clocks(pen, after.state.flags, after.clocks);
        let k = usize::from(target(self.recipe.lines[line_of(step)]));
        let mut numbers = after.state.d.chunks(longs_of(self.recipe.width));
        put_number(pen, k, Number(numbers.nth(k).unwrap_or(&[])));
    }

    // What stands below the steps.
    fn put_bottom(&self, pen: &mut Pen, ran: Ran) {
        put_standing(pen, "end", self.recipe.width, ran);
        writeln!(pen);
        put_carries(pen, self.recipe, self.run);
        put_ending(pen, self.text, ran);
    }

    // The whole table.
    pub(crate) fn put(&self, pen: &mut Pen) {
        self.put_top(pen);
        put_standing(pen, "start", self.recipe.width, self.run.not_begun());
        for done in self.run.steps() {
            self.put_row(pen, done);
        }
        self.put_bottom(pen, self.run.whole());
    }
}
