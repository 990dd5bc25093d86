// Standard input, and a file that is open, as the programs read them; and the line that tells a read or a write that failed.
#![tactic(auto)]

ghost use Rattle.std.specs.Prelude.{MatchResult};
ghost use Rattle.io.specs.Counts.{IsPrefixLen};

use std::io::{Error, Read, Write};
use text::parts::first;
use text::writers::Writer;

// A read failed, with so many bytes read before it.
#[derive(Clone, Copy)]
pub struct ReadFailed {
    pub n: usize,
    pub error: Error,
}

// Reads until `text` is full or the input ends, in as many pieces as it comes; how many bytes were read. What is read no
// contract can say.
pub fn read_text<R: Read>(from: &mut R, text: &mut [u8]) -> Result<usize, ReadFailed>
    ensures { MatchResult result (λ n. IsPrefixLen n text.new) (λ failed. IsPrefixLen failed.n text.new) }
{
    // A loop over `read`: std's `read_to_end` wants a heap, and `read_exact` tells no count where it fails.
    let mut n = 0;
    while n < text.len() {
        match from.read(&mut text[n..]) {
            Ok(0) => break,
            Ok(more) => n += more,
            Err(error) => return Err(ReadFailed { n, error }),
        }
    }
    Ok(n)
}

// Where an error's words end, of a text with zeros behind it: the system's number for the error is left off.
fn words_end(text: &[u8]) -> usize
    ensures { IsPrefixLen result text.now }
{
    let end = first(text, 0);
    let number = b" (os error ".as_slice();
    text[..end]
        .windows(number.len())
        .position(|part| part == number)
        .unwrap_or(end)
}

// Room for what failed, which is at most a file's name of 1,024 bytes, and the error's words.
pub const LINE_MAX: usize = 1_283;

// The line that tells a failure: what failed, as the caller names it, a colon, the error's words and byte 10. The words no contract can say.
pub fn failure_line(line: &mut [u8; LINE_MAX], what: &[u8], error: Error) -> usize
    ensures { IsPrefixLen result line.new }
{
    let mut room = [0u8; 256];
    let mut rest: &mut [u8] = &mut room;
    let _ = write!(rest, "{error}");
    let n = words_end(&room);
    let mut w = Writer { out: line, at: 0 };
    w.bytes(what);
    w.bytes(b": ");
    w.bytes(&room[..n]);
    w.byte(b'\n');
    w.at
}
