// The words that the program is started with, and those of a box's line (boxes.rt).
ghost use Rattle.std.specs.Prelude.{◌≤◌};

use crate::pen::Pen;
use crate::slips::{START_ROOM, Start};
use alu::types::Flags;
use input::{LINE_MAX, failure_line};
use std::env::{Env, FillError};
use std::io::{Error, Write};
use step::registers::State;

// Room for a word; `read_words` has it written out.
pub(crate) const WORD_ROOM: usize = 1024;

// What the program's own words may be beside those of a box.
const OF_THE_PROGRAM: &str = ", steps=COUNT, rows, boxes=FILE";

// What is asked for: the state to start with, the start place, and the steps that may be done.
#[derive(Clone, Copy)]
pub(crate) struct Asked {
    pub state: State,
    pub from: usize,
    pub steps: u32,
}

// What no word says: all registers 0, all flags clear, from place 0 to the end.
impl Default for Asked {
    fn default() -> Self {
        Asked {
            state: State::default(),
            from: 0,
            steps: u32::MAX,
        }
    }
}

// What is printed: a table, plain rows, or a row for each box of the file that a word of the program names, which has this number.
#[derive(Clone, Copy)]
pub(crate) enum View {
    Table,
    Rows,
    Boxes(usize),
}

// All words of the program.
#[derive(Clone, Copy)]
pub(crate) struct Words {
    pub asked: Asked,
    pub view: View,
}

// Why a word is not taken.
#[derive(Clone, Copy)]
pub(crate) enum NotTaken {
    Unknown,
    Again,
}

// What the words of a box give.
#[derive(Clone, Copy, Default)]
pub(crate) struct Given {
    d: [Option<u32>; 8],
    a: [Option<u32>; 8],
    x: Option<bool>,
    n: Option<bool>,
    z: Option<bool>,
    v: Option<bool>,
    c: Option<bool>,
    from: Option<usize>,
}

// What the words of the program give. `rows` has no value; `boxes` is the number of the word that names a file.
#[derive(Clone, Copy, Default)]
struct Said {
    box_words: Given,
    steps: Option<u32>,
    rows: Option<()>,
    boxes: Option<usize>,
}

// Each thing is given once.
fn give<T: Copy>(thing: &mut Option<T>, value: T) -> Result<(), NotTaken> {
    if thing.is_some() {
        return Err(NotTaken::Again);
    }
    *thing = Some(value);
    Ok(())
}

// A number of 1 to `most` digits, where it fits. (The readers of text take no lower case and no zero in front.)
fn number_of<N: TryFrom<u64>>(text: &[u8], base: u32, most: usize) -> Result<N, NotTaken>
where
    N::Error: Drop,
    requires { (2 ≤ base) × (base ≤ 36) }
{
    if text.is_empty() || most < text.len() {
        return Err(NotTaken::Unknown);
    }
    let number = text.iter().try_fold(0u64, |value, b| {
        let digit = char::from(*b).to_digit(base)?;
        value
            .checked_mul(u64::from(base))?
            .checked_add(u64::from(digit))
    });
    let number = number.ok_or(NotTaken::Unknown)?;
    N::try_from(number).map_err(|_| NotTaken::Unknown)
}

fn decimal_of<N: TryFrom<u64>>(text: &[u8]) -> Result<N, NotTaken>
where
    N::Error: Drop,
{
    number_of(text, 10, 10)
}

fn hex_of(text: &[u8]) -> Result<u32, NotTaken> {
    number_of(text, 16, 8)
}

fn flag_of(value: &[u8]) -> Result<bool, NotTaken> {
    match value {
        b"0" => Ok(false),
        b"1" => Ok(true),
        _ => Err(NotTaken::Unknown),
    }
}

// A word's name and its value, which `=` parts.
fn parted(word: &[u8]) -> Option<(&[u8], &[u8])> {
    let mark = word.iter().position(|b| *b == b'=')?;
    Some((&word[..mark], &word[mark + 1..]))
}

// What the registers hold, of those that are given.
fn registers(given: [Option<u32>; 8], others: [u32; 8]) -> [u32; 8] {
    let mut all = others;
    for (register, value) in all.iter_mut().zip(given) {
        *register = value.unwrap_or(*register);
    }
    all
}

impl Given {
    // One word more.
    pub(crate) fn take(&mut self, word: &[u8]) -> Result<(), NotTaken> {
        let (name, value) = parted(word).ok_or(NotTaken::Unknown)?;
        match name {
            b"from" => give(&mut self.from, decimal_of(value)?),
            b"X" => give(&mut self.x, flag_of(value)?),
            b"N" => give(&mut self.n, flag_of(value)?),
            b"Z" => give(&mut self.z, flag_of(value)?),
            b"V" => give(&mut self.v, flag_of(value)?),
            b"C" => give(&mut self.c, flag_of(value)?),
            [b'D', r @ b'0'..=b'7'] => give(&mut self.d[(*r - b'0') as usize], hex_of(value)?),
            [b'A', r @ b'0'..=b'7'] => give(&mut self.a[(*r - b'0') as usize], hex_of(value)?),
            _ => Err(NotTaken::Unknown),
        }
    }

    // What is asked for; what no word gives is asked for already.
    pub(crate) fn behind(&self, asked: Asked) -> Asked {
        let State { d, a, flags } = asked.state;
        Asked {
            state: State {
                d: registers(self.d, d),
                a: registers(self.a, a),
                flags: Flags {
                    x: self.x.unwrap_or(flags.x),
                    n: self.n.unwrap_or(flags.n),
                    z: self.z.unwrap_or(flags.z),
                    v: self.v.unwrap_or(flags.v),
                    c: self.c.unwrap_or(flags.c),
                },
            },
            from: self.from.unwrap_or(asked.from),
            steps: asked.steps,
        }
    }
}

impl Said {
    // Word i of the program.
    fn take(&mut self, i: usize, word: &[u8]) -> Result<(), NotTaken> {
        if word == b"rows".as_slice() {
            return give(&mut self.rows, ());
        }
        match parted(word) {
            Some((b"steps", count)) => give(&mut self.steps, decimal_of(count)?),
            Some((b"boxes", [_, ..])) => give(&mut self.boxes, i),
            _ => self.box_words.take(word),
        }
    }

    fn asked(&self) -> Asked {
        let all = Asked::default();
        Asked {
            steps: self.steps.unwrap_or(all.steps),
            ..self.box_words.behind(all)
        }
    }

    // Plain rows are of one run, so that they do not go with boxes.
    fn view(&self) -> Option<View> {
        match (self.rows, self.boxes) {
            (None, None) => Some(View::Table),
            (None, Some(i)) => Some(View::Boxes(i)),
            (Some(()), None) => Some(View::Rows),
            (Some(()), Some(_)) => None,
        }
    }
}

// Where it can't be written, nothing more is said.
pub(crate) fn tell<W: Write>(to: &mut W, text: &[u8]) {
    let _ = to.write_all(text);
}

// What failed, as `what` names it, and why. Here and not in `input`: a public function that no definition determines may not be added (OUTSIDE of tools/contracts).
pub(crate) fn tell_failed<W: Write>(to: &mut W, what: &[u8], error: Error) {
    let mut line = [0u8; LINE_MAX];
    let n = failure_line(&mut line, what, error);
    tell(to, &line[..n]);
}

// Says why a word was not taken, which is made visible as a refused line is, and what may stand there beside the words of a
// box. Where it stands is said before. The word goes out in one piece: standard error has no buffer.
pub(crate) fn report<W: Write>(to: &mut W, word: &[u8], why: NotTaken, others: &str) {
    let mut seen = [0u8; START_ROOM];
    let mut pen = Pen::new(&mut seen);
    write!(pen, "{}", Start(word));
    tell(to, pen.written());
    match why {
        NotTaken::Again => tell(
            to,
            b" is a second word for the same thing: each is given once\n",
        ),
        NotTaken::Unknown => {
            tell(
                to,
                b" is not understood: D0=HEX..D7=HEX, A0=HEX..A7=HEX, X= N= Z= V= C= 0 or 1, from=PLACE",
            );
            tell(to, others.as_bytes());
            tell(to, b"\n");
        }
    }
}

// All words; reading ends at the first that is not taken, which is reported. Word 0 is the program's own name.
// By number: std's `args` wants a heap.
pub(crate) fn read_words<E: Env, W: Write>(env: &E, to: &mut W) -> Option<Words> {
    let mut said = Said::default();
    for i in 1..usize::MAX {
        let mut buffer = [0u8; WORD_ROOM];
        let word: &[u8] = match env.arg(i, &mut buffer) {
            Ok(n) => &buffer[..n],
            // What is said of one that is too long is no word either.
            Err(FillError::TooLong) => b"a word of more than 1024 bytes",
            Err(FillError::NotPresent) => break,
        };
        if let Err(why) = said.take(i, word) {
            tell(to, b"bench: ");
            report(to, word, why, OF_THE_PROGRAM);
            return None;
        }
    }
    let Some(view) = said.view() else {
        tell(
            to,
            b"bench: rows is not understood with boxes=FILE: it shows one run\n",
        );
        return None;
    };
    Some(Words {
        asked: said.asked(),
        view,
    })
}
