// Reads a recipe from standard input and prints its listing, or its refusal, on standard output. Only the first
// `TEXT_MAX` bytes of the input are read: a longer text meets its refusal within them. Where reading or writing fails, standard
// error says why; the exit status is 0 all the same.
#![tactic(auto)]

ghost use Rattle.std.specs.Prelude.{◌≡◌, take};
ghost use Rattle.io.specs.Counts.{IsPrefixLen};
ghost use Rattle.recipes.specs.Printer.{answer_of};

use input::{LINE_MAX, ReadFailed, failure_line, read_text};
use recipes::types::{PRINT_MAX, TEXT_MAX};
use std::io::{Error, Write};

// The whole answer to a text: the slice has room for any (`answer_short` of recipes/proofs/Room).
fn answer(text: &[u8], out: &mut [u8; PRINT_MAX]) -> usize
    ensures prefix_len { IsPrefixLen result out.new }
    ensures out_after { take result out.new ≡ answer_of text.now }
{
    recipes::runner::answer(text, out)
}

// Says on standard error what failed, and why. Here and not in `input`: a public function that no definition determines may not be added (OUTSIDE of tools/contracts).
fn complain(rt: &HostRuntime, what: &[u8], error: Error) {
    let mut line = [0u8; LINE_MAX];
    let k = failure_line(&mut line, what, error);
    let _ = rt.stderr().write_all(&line[..k]);
}

fn main(rt: HostRuntime) {
    let mut text = [0u8; TEXT_MAX];
    match read_text(&mut rt.stdin(), &mut text) {
        Ok(n) => {
            let mut out = [0u8; PRINT_MAX];
            let m = answer(&text[..n], &mut out);
            if let Err(error) = rt.stdout().write_all(&out[..m]) {
                complain(&rt, b"recipe: standard output", error);
            }
        }
        Err(ReadFailed { error, .. }) => complain(&rt, b"recipe: standard input", error),
    }
}
