// What a recipe is, its limits, why one is refused, and what its reader, its translator and its run answer.
ghost use Rattle.std.specs.Prelude.{◌≡◌};
ghost use Rattle.recipes.specs.Recipe.{number_of, at_column, at_line, recipe_lines};
ghost use Rattle.recipes.specs.Reader.{no_recipe};
ghost use Rattle.recipes.specs.Listing.{used_slots};

use super::lines::unused;
use alu::types::Flags;
use step::forms::Step;
use step::runs::SLOTS;

// The most lines of a recipe.
pub const LINES_MAX: usize = 32;

// The most steps of a recipe's listing.
pub const STEPS_MAX: u32 = 256;

// What a program reads of a text: a longer one meets its refusal within it, on the same line (proofs/Cut).
pub const TEXT_MAX: usize = 1024;

// Room for what is printed of any recipe (`answer_short` of proofs/Room).
pub const PRINT_MAX: usize = 24576;

#[derive(Clone, Copy, PartialEq, Eq)]
pub enum Verb {
    Clear,
    Copy,
    Add,
    Sub,
    Neg,
    Not,
    Halve,
    Down,
    Up,
}

// A recipe line. A verb that takes one number has it in `a`, and `b` doesn't count; the reader makes it 0.
#[derive(Clone, Copy, PartialEq, Eq)]
pub struct Line {
    pub verb: Verb,
    pub a: u8,
    pub b: u8,
}

// The first `count` of `lines` are the recipe's; the reader makes the others `clear 0`. An array with a count beside it: the
// project has no heap.
#[derive(Clone, Copy)]
pub struct Recipe {
    pub width: u8,
    pub count: usize,
    pub lines: [Line; LINES_MAX],
}

impl Recipe {
    // The recipe's lines: all of the array's where `count` is above `LINES_MAX`.
    pub fn lines(&self) -> &[Line]
        ensures { result.now ≡ recipe_lines self.now }
    {
        &self.lines[..self.count.min(LINES_MAX)]
    }
}

// Document 01's recipe of a text that is refused: `read(text).unwrap_or_default()` is the recipe that it names.
impl Default for Recipe {
    ghost is_default = { λ recipe. recipe ≡ no_recipe };

    fn default() -> Recipe {
        Recipe {
            width: 1,
            count: 0,
            lines: [unused(); LINES_MAX],
        }
    }
}

// Why a text or a recipe is refused: 4, 6 to 9 of document 01 and 11 to 14 of document 02.
#[derive(Clone, Copy, PartialEq, Eq)]
pub enum Refusal {
    WidthLine,
    NoSuchNumber,
    OntoItself,
    TooManyLines,
    NoSpace,
    UnknownVerb,
    WrongFields,
    NotADigit,
    NoNewline,
}

// The number of a refusal.
impl From<Refusal> for u8 {
    ghost from_gives = { λ refusal n. n ≡ number_of refusal };

    fn from(refusal: Refusal) -> u8 {
        match refusal {
            Refusal::WidthLine => 4,
            Refusal::NoSuchNumber => 6,
            Refusal::OntoItself => 7,
            Refusal::TooManyLines => 8,
            Refusal::NoSpace => 9,
            Refusal::UnknownVerb => 11,
            Refusal::WrongFields => 12,
            Refusal::NotADigit => 13,
            Refusal::NoNewline => 14,
        }
    }
}

// A refusal, the text line that it is of, and the column in it, in bytes; both count from 1. The line is 0 where none is to
// blame, the column for every refusal but 11 to 14. Line k of a recipe, from 0, is text line k + 2 and the width line 1; too
// many lines and too little room have line 0 where the translator refuses them.
// No `Option`: 0 for none is document 02's number ("else 0"), which `refusal_text` prints and C is told.
#[derive(Clone, Copy, PartialEq, Eq)]
pub struct Refused {
    pub refusal: Refusal,
    pub line: usize,
    pub column: usize,
}

// Every refusal is made here.
pub(crate) fn at_column(refusal: Refusal, line: usize, column: usize) -> Refused
    ensures { result ≡ at_column refusal line column }
{
    Refused {
        refusal,
        line,
        column,
    }
}

// A refusal that has no column.
pub fn at_line(refusal: Refusal, line: usize) -> Refused
    ensures { result ≡ at_line refusal line }
{
    at_column(refusal, line, 0)
}

// A listing by value: its first `count` slots. The others are blank. An array with a count beside it, as `Recipe`.
#[derive(Clone, Copy)]
pub struct Listing {
    pub count: usize,
    pub steps: [Step; SLOTS],
}

impl Listing {
    // The listing's steps: all slots where `count` is above `SLOTS`.
    pub fn steps(&self) -> &[Step]
        ensures { result.now ≡ used_slots self.now }
    {
        &self.steps[..self.count.min(SLOTS)]
    }
}

// What came of a recipe that was run: the registers and X; all five flags where they are told; the steps done and the sum of
// their figures. After add, sub and neg the flags are told: those of the whole number. With no line they are as they were.
// After any other line document 01 promises X alone.
#[derive(Clone, Copy)]
pub struct RecipeRun {
    pub d: [u32; 8],
    pub a: [u32; 8],
    pub x: bool,
    pub codes: Option<Flags>,
    pub steps: u32,
    pub clocks: u64,
}
