// Runs the cases of data/, a row for each: recipe texts and what is printed for them (refusals.tsv), runs of listings
// (runs.tsv), and recipes run by one call (recipes.tsv). A row has fields parted by tabs, its name first; a line
// that begins with # is none. A row that fails, or does not read, is told with its name, its file and its line.
#![tactic(auto)]

mod fields;
mod runs;
mod texts;

ghost use Rattle.io.specs.Counts.{IsPrefixLen};

use input::read_text;
use std::fs::File;
use std::rt::Files;
use std::{fmt, io};
use text::types::{NEWLINE, TAB};

// Room for a file. One that fills it is too long, and its last line is not whole.
const FILE: usize = 65536;

// Its own in each program that counts: what they count and tell differs, and one type for all of it is no plainer.
#[derive(Clone, Copy, Default)]
struct Tally {
    lines: u64,
    cases: u64,
    failed: u64,
}

impl fmt::Display for Tally {
    fn fmt<W: fmt::Write>(&self, f: &mut fmt::Formatter<W>) -> fmt::Result {
        write!(f, "{} cases, {} failed", self.cases, self.failed)
    }
}

impl Tally {
    // One more line; a row that fails is told.
    fn count<R: Print>(&mut self, rt: &R, path: &str, row: &[u8], passed: bool) -> io::Result<()> {
        self.cases = self.cases.wrapping_add(1);
        if passed {
            return Ok(());
        }
        self.failed = self.failed.wrapping_add(1);
        let name = row.split(|b| *b == TAB).next().unwrap_or(row);
        print!(rt; "failed: ")?;
        rt.write_all(name)?;
        println!(rt; " ({path} line {})", self.lines)
    }
}

// The tally of all lines; one that is not whole fails. Of a row `judge` says whether it is as it ought to be, if it reads.
fn all_lines<R: Print, J: Fn(&[u8]) -> Option<bool>>(
    rt: &R,
    path: &str,
    judge: &J,
    file: &[u8],
) -> io::Result<Tally>
    requires { J.IsAlwaysCallable judge.now }
{
    let mut tally = Tally::default();
    let mut end: usize = 0;
    for line in file.split_inclusive(|b| *b == NEWLINE) {
        tally.lines = tally.lines.wrapping_add(1);
        end = end.wrapping_add(line.len());
        if line.starts_with(b"#") {
            continue;
        }
        let (row, whole) = match line.strip_suffix(b"\n") {
            Some(row) => (row, end < FILE),
            None => (line, false),
        };
        tally.count(rt, path, row, whole && judge(row) == Some(true))?;
    }
    Ok(tally)
}

// The bytes of a file, as far as there is room; of one that can't be read none.
fn read_file<R: Files>(files: &R, path: &str, file: &mut [u8]) -> usize
    ensures { IsPrefixLen result file.new }
{
    match File::open(files, path) {
        Ok(mut opened) => read_text(&mut opened, file).unwrap_or_else(|failed| failed.n),
        Err(_) => 0,
    }
}

fn replay<R: Files + Print, J: Fn(&[u8]) -> Option<bool> + Drop>(
    rt: &R,
    path: &str,
    judge: J,
) -> io::Result<()>
    requires { J.IsAlwaysCallable judge }
{
    let mut file = [0u8; FILE];
    let length = read_file(rt, path, &mut file);
    let tally = all_lines(rt, path, &judge, &file[..length])?;
    println!(rt; "{path}: {tally}")
}

fn main(rt: HostRuntime) -> io::Result<()> {
    replay(&rt, "refusals.tsv", texts::prints)?;
    replay(&rt, "runs.tsv", runs::runs)?;
    replay(&rt, "recipes.tsv", texts::runs)
}
