// Replays the Rust crate's frozen answers against the packed calls. Each file of data/ has lines of
// 43 bytes, made by `compare/run vectors`; compare/README.md has their format. A line with another
// answer is written out with what came instead; the file `stdout` has the count of each file.
#![tactic(auto)]

mod line;

use input::{LINE_MAX, failure_line, read_text};
use line::{LENGTH, Line};
use std::fs::File;
use std::io::Read;
use std::rt::Files;
use std::{fmt, io};

// One for each operation.
const FILES: [&str; 30] = [
    "add.tsv",
    "sub.tsv",
    "cmp.tsv",
    "addx.tsv",
    "subx.tsv",
    "adda.tsv",
    "suba.tsv",
    "cmpa.tsv",
    "addq.tsv",
    "subq.tsv",
    "addqa.tsv",
    "subqa.tsv",
    "clr.tsv",
    "neg.tsv",
    "negx.tsv",
    "not.tsv",
    "ext.tsv",
    "asl.tsv",
    "asr.tsv",
    "lsl.tsv",
    "lsr.tsv",
    "rol.tsv",
    "ror.tsv",
    "roxl.tsv",
    "roxr.tsv",
    "btst.tsv",
    "bset.tsv",
    "bclr.tsv",
    "bchg.tsv",
    "chk.tsv",
];

// More lines than a file has: a proved loop has to end.
const LINES_MAX: u32 = 1_000_000;

// Its own in each program that counts: what they count and tell differs, and one type for all of it is no plainer.
#[derive(Clone, Copy, Default)]
struct Tally {
    cases: u64,
    failed: u64,
}

impl fmt::Display for Tally {
    fn fmt<W: fmt::Write>(&self, f: &mut fmt::Formatter<W>) -> fmt::Result {
        write!(f, "{} cases, {} failed", self.cases, self.failed)
    }
}

impl Tally {
    // One more line; one with another answer is told.
    fn count<R: Print>(&mut self, rt: &R, path: &str, text: &[u8; LENGTH]) -> io::Result<()> {
        self.cases = self.cases.wrapping_add(1);
        let line = Line::from(text);
        let got = line.answer();
        if line.agrees(got) {
            return Ok(());
        }
        self.failed = self.failed.wrapping_add(1);
        print!(rt; "failed: {path} line {}, got {got:016x} for ", self.cases)?;
        rt.write_all(text)
    }
}

// The tally of all lines.
fn all_lines<R: Print, F: Read>(rt: &R, path: &str, file: &mut F) -> io::Result<Tally> {
    let mut tally = Tally::default();
    for _ in 0..LINES_MAX {
        let mut text = [0u8; LENGTH];
        if !read_text(file, &mut text).is_ok_and(|n| n == LENGTH) {
            break;
        }
        tally.count(rt, path, &text)?;
    }
    Ok(tally)
}

// A file that can't be opened is told, and passed over. It is told here and not in `input`: a public function that no definition determines may not be added (OUTSIDE of tools/contracts).
fn replay(rt: &HostRuntime, path: &str) -> io::Result<()> {
    match File::open(rt, path) {
        Ok(mut file) => {
            let tally = all_lines(rt, path, &mut file)?;
            println!(rt; "{path}: {tally}")
        }
        Err(error) => {
            let mut line = [0u8; LINE_MAX];
            let k = failure_line(&mut line, path.as_bytes(), error);
            let _ = rt.stderr().write_all(&line[..k]);
            Ok(())
        }
    }
}

fn main(rt: HostRuntime) -> io::Result<()> {
    for path in FILES {
        replay(&rt, path)?;
    }
    Ok(())
}
