// Shows a recipe's listing running. The recipe's text is the first `TEXT_MAX` bytes of standard input; the words that the
// program is started with give the registers and flags, the start place and the number of steps (words.rt). Standard
// output gets a table for people (table.rt) or plain rows (rows.rt), or, with a file of boxes, a row for each box (boxes.rt);
// and of a refused recipe its refusal, with the table's place taken by what is wrong (slips.rt). Where a word is not
// understood, or reading or writing fails, standard error says so.
#![tactic(auto)]

mod boxes;
mod carry;
mod course;
mod ending;
mod ends;
mod numbers;
mod pen;
mod rows;
mod slips;
mod table;
mod words;

use boxes::Rack;
use ends::Ends;
use input::read_text;
use pen::Pen;
use recipes::reader::read;
use recipes::translator::translate_array;
use recipes::types::{Listing, Recipe, Refused, TEXT_MAX};
use slips::{put_refusal, put_slip};
use std::env::Env;
use std::io::Write;
use std::rt::Files;
use table::Shown;
use words::{View, Words, read_words, tell_failed};

// Room for any answer: a table has a row of at most 151 bytes for each of `STEPS_MAX` steps and four more, and less than 3,000
// bytes above and below them; plain rows are one more than the steps, of 158 bytes; 64 boxes have a row of at most 140 bytes and
// words of at most 228, and less than 1,000 bytes above them.
const ROOM: usize = 65536;

// A text's recipe and its listing. A recipe that was read is always translated.
fn translated(text: &[u8]) -> Result<(Recipe, Listing), Refused> {
    let recipe = read(text)?;
    let listing = translate_array(recipe)?;
    Ok((recipe, listing))
}

impl<R: Env + Files, W: Write> Ends<'_, R, W> {
    // A run, as it is asked for.
    fn put_view(&mut self, view: View, shown: Shown) {
        let Shown { recipe, run, .. } = shown;
        match view {
            View::Table => shown.put(&mut self.pen),
            View::Rows => rows::put_run(&mut self.pen, run),
            View::Boxes(i) => Rack { recipe, run }.put_run(self, i),
        }
    }

    // The whole answer to a text.
    fn answer(&mut self, words: Words, text: &[u8]) {
        let Words { asked, view } = words;
        match translated(text) {
            Ok((recipe, listing)) => {
                let shown = Shown::new(text, &recipe, listing.steps(), asked);
                self.put_view(view, shown);
            }
            Err(refused) => {
                put_refusal(&mut self.pen, refused);
                if !matches!(view, View::Rows) {
                    put_slip(&mut self.pen, text, refused);
                }
            }
        }
    }
}

fn main(rt: HostRuntime) {
    let mut told = rt.stderr();
    let Some(words) = read_words(&rt, &mut told) else {
        return;
    };
    let mut text = [0u8; TEXT_MAX];
    let n = match read_text(&mut rt.stdin(), &mut text) {
        Ok(n) => n,
        Err(failed) => {
            tell_failed(&mut told, b"bench: standard input", failed.error);
            return;
        }
    };
    let mut out = [0u8; ROOM];
    let mut ends = Ends {
        rt: &rt,
        told: &mut told,
        pen: Pen::new(&mut out),
    };
    ends.answer(words, &text[..n]);
    let Ends { told, pen, .. } = ends;
    if let Err(error) = rt.stdout().write_all(pen.written()) {
        tell_failed(told, b"bench: standard output", error);
    }
}
