// What reader and translator share: document 01's verbs, a row for each, and which lines a recipe may hold. In a contract
// `target` and `unused` are the definitions of specs/, not the functions here.
ghost use Rattle.std.specs.Prelude.{◌≡◌, true, false};
ghost use Rattle.recipes.specs.declared.lines.Act.TheVariants.{One, Two, Shift};
ghost use Rattle.recipes.specs.Recipe.{way, way_of, goal_of, target, is_width, unused, line_refusal};

use super::types::{Line, Refusal, Verb};
use Act::{One, Shift, Two};
use alu::shift_rotate::ShiftOp::{self, Asr, Lsl, Lsr, Roxl, Roxr};
use step::forms::OneOp::{self, Clr, Neg, Negx, Not};
use step::forms::TwoOp::{self, Add, Addx, Sub, Subx};

// What is done at a register: of the target alone, of source and target, or a shift by 1.
#[derive(Clone, Copy)]
pub(crate) enum Act {
    One(OneOp),
    Two(TwoOp),
    Shift(ShiftOp),
}

// How a verb is done: whether it takes two numbers; whether a CLR stands before each of its steps; its step at the first
// register that it takes, and at each other; whether it takes the highest register first; whether all five flags behind
// it are told.
#[derive(Clone, Copy)]
pub(crate) struct Way {
    pub takes_two: bool,
    pub clears: bool,
    pub first: Act,
    pub other: Act,
    pub falls: bool,
    pub tells: bool,
}

// What a slot past a recipe's lines holds: `clear 0`.
pub(crate) fn unused() -> Line
    ensures { result ≡ unused }
{
    Line {
        verb: Verb::Clear,
        a: 0,
        b: 0,
    }
}

impl Way {
    fn of(takes_two: bool, clears: bool, first: Act, other: Act, falls: bool, tells: bool) -> Way
        ensures { result ≡ way takes_two clears first other falls tells }
    {
        Way {
            takes_two,
            clears,
            first,
            other,
            falls,
            tells,
        }
    }
}

// Columns: takes two | CLR before each | first step | other steps | highest first | flags told.
pub(crate) fn way_of(verb: Verb) -> Way
    ensures { result ≡ way_of verb }
{
    match verb {
        Verb::Clear => Way::of(false, false, One(Clr), One(Clr), false, false),
        Verb::Copy => Way::of(true, true, Two(Add), Two(Add), false, false),
        Verb::Add => Way::of(true, false, Two(Add), Two(Addx), false, true),
        Verb::Sub => Way::of(true, false, Two(Sub), Two(Subx), false, true),
        Verb::Neg => Way::of(false, false, One(Neg), One(Negx), false, true),
        Verb::Not => Way::of(false, false, One(Not), One(Not), false, false),
        Verb::Halve => Way::of(false, false, Shift(Asr), Shift(Roxr), true, false),
        Verb::Down => Way::of(false, false, Shift(Lsr), Shift(Roxr), true, false),
        Verb::Up => Way::of(false, false, Shift(Lsl), Shift(Roxl), false, false),
    }
}

// The number that a line of this way changes.
pub(crate) fn goal(way: Way, line: Line) -> u8
    ensures { result ≡ goal_of way line }
{
    if way.takes_two { line.b } else { line.a }
}

// The number that a line changes.
pub fn target(line: Line) -> u8
    ensures { result ≡ target line }
{
    goal(way_of(line.verb), line)
}

pub(crate) fn is_width(width: u8) -> bool
    ensures { result ≡ is_width width }
{
    matches!(width, 1 | 2 | 4)
}

// Whether a line may stand in a recipe of so many numbers, or why it may not.
#[tactic(auto, unfolding(crate::specs::Recipe::line_refusal))]
pub(crate) fn check_line(numbers: u8, line: Line) -> Result<(), Refusal>
    ensures { result ≡ line_refusal numbers line }
{
    let way = way_of(line.verb);
    let to = goal(way, line);
    if numbers <= line.a || numbers <= to {
        return Err(Refusal::NoSuchNumber);
    }
    if way.clears && line.a == to {
        return Err(Refusal::OntoItself);
    }
    Ok(())
}
