// A rack of boxes: a row for each, which is the run on it alone. A file has a line for each box, of words as the program itself
// takes them, with blanks or tabs between; what a line does not say, the program's own words say for every box.
ghost use Rattle.std.specs.Prelude.{IfOk};
ghost use Rattle.io.specs.Counts.{IsPrefixLen};

use crate::course::Run;
use crate::ending::{Ended, GoOn};
use crate::ends::Ends;
use crate::numbers::{Number, longs_of, put_numbering};
use crate::pen::{BLANK, Bits, NEWLINE, Pen, TAB};
use crate::table::Sizes;
use crate::words::{Asked, Given, NotTaken, WORD_ROOM, report, tell, tell_failed};
use input::read_text;
use recipes::types::Recipe;
use std::env::Env;
use std::fs::File;
use std::io::{Error, ErrorKind, Write};
use std::rt::Files;
use step::racks::{BOXES_MAX, plan};
use step::runs::{End, Ran};

// The most bytes of a file: as many lines as a rack has boxes, of 255 bytes and a line end. `report_unread` has both written out.
// One byte more has room, by which a longer file is told.
const FILE_MAX: usize = BOXES_MAX * 256;

const FILE_ROOM: usize = FILE_MAX + 1;

// Where the columns end that stand to the right.
const BOX: usize = 3;

const PLACE: usize = 22;

const STEPS: usize = 29;

const CLOCKS: usize = 37;

// What all boxes have: the recipe that they run, and what is asked for each behind the words of its line.
#[derive(Clone, Copy)]
pub(crate) struct Rack<'a> {
    pub recipe: &'a Recipe,
    pub run: Run<'a>,
}

// The first word of a line that is not taken, and why.
#[derive(Clone, Copy)]
struct BadWord<'a> {
    word: &'a [u8],
    why: NotTaken,
}

// Such a word's line, from 1.
#[derive(Clone, Copy)]
struct BadLine<'a> {
    number: u64,
    bad: BadWord<'a>,
}

// Why a file is not read.
#[derive(Clone, Copy)]
enum Unread {
    Failed(Error),
    TooLong,
}

// What a box's line asks for. Its line end is no word.
fn read_line(line: &[u8], asked: Asked) -> Result<Asked, BadWord<'_>> {
    let mut given = Given::default();
    for word in line.split(|b| matches!(*b, BLANK | TAB | NEWLINE)) {
        if !word.is_empty() {
            given.take(word).map_err(|why| BadWord { word, why })?;
        }
    }
    Ok(given.behind(asked))
}

// How many lines a file has; the last one needs no line end.
fn count_lines(file: &[u8]) -> usize {
    file.split_inclusive(|b| *b == NEWLINE).count()
}

// The heading of the columns.
fn heading(width: u8) -> &'static str {
    match width {
        1 => {
            "box  end         place  steps  clocks  X N Z V C  number 0  number 1  number 2  number 3  number 4  number 5  number 6  number 7"
        }
        2 => {
            "box  end         place  steps  clocks  X N Z V C  number 0           number 1           number 2           number 3"
        }
        _ => {
            "box  end         place  steps  clocks  X N Z V C  number 0                             number 1"
        }
    }
}

// A number that ends before a column, behind two blanks at least.
fn put_figure(pen: &mut Pen, column: usize, n: u64) {
    write!(pen, "  ");
    pen.put_right(column, n);
}

fn put_row(pen: &mut Pen, number: u64, width: u8, ran: Ran) {
    pen.put_right(BOX, number);
    write!(pen, "  {}", Ended(ran.end));
    put_figure(pen, PLACE, ran.next as u64);
    put_figure(pen, STEPS, u64::from(ran.steps));
    put_figure(pen, CLOCKS, ran.clocks);
    write!(pen, " {}", Bits(' ', ran.state.flags));
    for longs in ran.state.d.chunks(longs_of(width)) {
        write!(pen, " {}", Number(longs));
    }
    writeln!(pen);
}

// What stands below the rows, where some box was halted: an empty line, and a file to go on with.
fn put_halted(pen: &mut Pen, runs: &[Ran]) {
    writeln!(
        pen,
        "\nhalted: go on with boxes=FILE, and steps=COUNT if you like, where FILE has these lines"
    );
    for ran in runs {
        writeln!(pen, "{}", GoOn(*ran));
    }
}

impl Rack<'_> {
    // The run of each line's box; as many as there is room for.
    fn run_lines<'a>(&self, file: &'a [u8], runs: &mut [Ran]) -> Result<(), BadLine<'a>> {
        let Run { listing, asked } = self.run;
        let lines = file.split_inclusive(|b| *b == NEWLINE);
        for (number, (line, ran)) in (1..).zip(lines.zip(runs)) {
            let asked = read_line(line, asked).map_err(|bad| BadLine { number, bad })?;
            *ran = Run { listing, asked }.whole();
        }
        Ok(())
    }

    // The whole table.
    fn put_table(&self, pen: &mut Pen, runs: &[Ran]) {
        let width = self.recipe.width;
        let boxes = runs.len();
        let end = if boxes == 1 { "" } else { "es" };
        let sizes = Sizes(self.recipe, self.run.listing.len());
        writeln!(pen, "{sizes}, {boxes} box{end}");
        put_numbering(pen, width);
        writeln!(pen, "\n{}", heading(width));
        for (number, ran) in (1..).zip(runs) {
            put_row(pen, number, width, *ran);
        }
        if runs.iter().any(|ran| matches!(ran.end, End::Budget)) {
            put_halted(pen, runs);
        }
    }

    // The boxes are counted before their words are looked at; each has a start place and a row.
    fn put_rack<R, W: Write>(&self, ends: &mut Ends<'_, R, W>, name: &[u8], file: &[u8]) {
        let pen = &mut ends.pen;
        let count = count_lines(file);
        let boxes = match plan(count, count, count) {
            Ok(boxes) => boxes,
            Err(refusal) => {
                writeln!(pen, "refused\t{}", u8::from(refusal));
                // It has `BOXES_MAX` written out.
                writeln!(pen, "Cut the file in two: a rack has at most 64 boxes.");
                return;
            }
        };
        let mut room = [self.run.not_begun(); BOXES_MAX];
        let runs = &mut room[..boxes];
        match self.run_lines(file, runs) {
            Ok(()) => self.put_table(pen, runs),
            Err(refused) => report_line(ends.told, name, refused),
        }
    }

    // Word i of the program names the file. Nothing is printed, and the cause told, where the file can't be read or a line
    // is not understood.
    pub(crate) fn put_run<R: Env + Files, W: Write>(&self, ends: &mut Ends<'_, R, W>, i: usize) {
        let mut word = [0u8; WORD_ROOM];
        let n = ends.rt.arg(i, &mut word).unwrap_or(0);
        let name = word[..n].strip_prefix(b"boxes=").unwrap_or(&[]);
        let mut file = [0u8; FILE_ROOM];
        match read_file(ends.rt, name, &mut file) {
            Ok(n) => self.put_rack(ends, name, &file[..n]),
            Err(cause) => report_unread(ends.told, name, cause),
        }
    }
}

fn report_line<W: Write>(to: &mut W, name: &[u8], refused: BadLine<'_>) {
    let BadLine { number, bad } = refused;
    let _ = write!(to, "bench: line {number} of ");
    tell(to, name);
    tell(to, b": ");
    report(to, bad.word, bad.why, "");
}

// The bytes of a file, as far as there is room. A name that is no text can't be opened.
fn open_and_read<R: Files>(files: &R, name: &[u8], file: &mut [u8]) -> Result<usize, Error>
    ensures { IfOk result (λ n. IsPrefixLen n file.new) }
{
    let path = str::from_utf8(name).map_err(|_| Error::from(ErrorKind::InvalidFilename))?;
    let mut opened = File::open(files, path)?;
    read_text(&mut opened, file).map_err(|failed| failed.error)
}

fn read_file<R: Files>(files: &R, name: &[u8], file: &mut [u8]) -> Result<usize, Unread>
    ensures { IfOk result (λ n. IsPrefixLen n file.new) }
{
    let n = open_and_read(files, name, file).map_err(Unread::Failed)?;
    if FILE_MAX < n {
        return Err(Unread::TooLong);
    }
    Ok(n)
}

fn report_unread<W: Write>(to: &mut W, name: &[u8], cause: Unread) {
    tell(to, b"bench: ");
    match cause {
        Unread::Failed(error) => tell_failed(to, name, error),
        Unread::TooLong => {
            tell(to, name);
            tell(
                to,
                b" has more than 16384 bytes, which is 64 lines of 255 with their line ends\n",
            );
        }
    }
}
