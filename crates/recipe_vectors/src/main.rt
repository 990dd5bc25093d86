// Replays random recipes on random registers, halted at every place and run as a whole, against whole-number arithmetic,
// which tells registers and flags at the end and at the middle, a place behind some of the lines. Standard input has the
// vectors that `tools/recipe-vectors` makes; the file `stdin` has some of them. A vector that fails is written out with its
// number and what failed first; one that is no vector ends the reading.
#![tactic(auto)]

mod header;
mod replay;

use header::{Header, LENGTH, Malformed, Vector};
use input::read_text;
use recipes::types::TEXT_MAX;
use replay::{Failure, Slip, replay};
use std::io::Read;
use std::{fmt, io};

// Its own in each program that counts: what they count and tell differs, and one type for all of it is no plainer.
#[derive(Clone, Copy, Default)]
struct Tally {
    recipes: u64,
    runs: u64,
    failed: u64,
}

impl fmt::Display for Tally {
    fn fmt<W: fmt::Write>(&self, f: &mut fmt::Formatter<W>) -> fmt::Result {
        write!(
            f,
            "{} recipes, {} runs, {} failed",
            self.recipes, self.runs, self.failed
        )
    }
}

impl Tally {
    // One more vector; what failed is told.
    fn count<R: Print>(&mut self, rt: &R, outcome: Result<(), Failure>) -> io::Result<()> {
        self.recipes = self.recipes.wrapping_add(1);
        let Err(Failure { slip, place }) = outcome else {
            return Ok(());
        };
        self.failed = self.failed.wrapping_add(1);
        println!(rt; "failed: recipe {}, place {place}: {slip}", self.recipes)
    }
}

// Reads the next vector, with its text into `room`; none where the input has ended.
fn next<'a, R: Read>(
    from: &mut R,
    room: &'a mut [u8],
) -> Result<Option<(Vector, &'a [u8])>, Malformed> {
    let mut head = [0u8; LENGTH];
    match read_text(from, &mut head).unwrap_or_else(|failed| failed.n) {
        0 => return Ok(None),
        LENGTH => {}
        _ => return Err(Malformed),
    }
    let header = Header::try_from(&head)?;
    let length = header.text_length();
    if length > room.len() {
        return Err(Malformed);
    }
    let text = &mut room[..length];
    if !read_text(from, text).is_ok_and(|n| n == length) {
        return Err(Malformed);
    }
    Ok(Some((header.vector(), text)))
}

// The tally of all vectors. A proved loop has to end: this one does after more than any input has.
fn all_vectors<R: Print, I: Read>(rt: &R, from: &mut I) -> io::Result<Tally> {
    let mut tally = Tally::default();
    for _ in 0..u32::MAX {
        let mut room = [0u8; TEXT_MAX];
        match next(from, &mut room) {
            Ok(None) => break,
            Ok(Some((vector, text))) => {
                let outcome = replay(&vector, text, &mut tally.runs);
                tally.count(rt, outcome)?;
            }
            Err(Malformed) => {
                tally.count(rt, Err(Slip::Malformed.at(0)))?;
                break;
            }
        }
    }
    Ok(tally)
}

fn main(rt: HostRuntime) -> io::Result<()> {
    let tally = all_vectors(&rt, &mut rt.stdin())?;
    println!(rt; "{tally}")
}
