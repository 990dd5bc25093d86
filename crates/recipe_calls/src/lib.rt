// Recipes, listings and runs for Rust and C: every argument and every answer is a number, or a row of numbers that is lent.
// The crate recipe_archive exports these functions; bindings/c/gromavelush.h shows how a step is laid out in a word. What a
// call tells stands in a row of `TOLD` numbers, and those without a meaning are 0.
//
// Every function takes every input: none has a `requires`. A word that names no step stands for one that is refused
// with 2.
#![tactic(auto)]

mod rows;
mod words;

ghost use Rattle.std.specs.Prelude.{[], ◌∷◌, ◌≡◌, ◌+◌, ◌*◌, ◌<◌, ◌≤◌, length};
ghost use Rattle.step.specs.Perform.{perform_of};
ghost use Rattle.step.specs.Run.{run_of, end_numbers};
ghost use Rattle.text.specs.Wrote.{written, writing};
ghost use Rattle.recipes.specs.Recipe.{number_of};
ghost use Rattle.recipes.specs.Printer.{listing_text, answer_of};
ghost use Rattle.recipe_calls.specs.Words.{first_of};
ghost use Rattle.recipe_calls.specs.Calls.{row_left, state_of, state_left, rack_left, translation_told, translate_words, ran_told, run_words, rack_told, rack_words, promised_of, ccr_after, recipe_run_words};
ghost use Rattle.recipe_calls.specs.Boxes.{box_state, BoxPut};

use alu::types::Flags;
use recipes::printer::print;
use recipes::reader::read;
use recipes::runner::{answer, run_text};
use recipes::translator::translate_array;
use recipes::types::{RecipeRun, Refusal, Refused, at_line};
use rows::{eight_at, put_eight, put_steps, steps_of};
use step::forms::Step;
use step::lent::run;
use step::racks::{TooManyBoxes, plan};
use step::registers::State;
use step::runs::{End, Ran, SLOTS};
use words::no_step;

// How many numbers a call tells.
pub const TOLD: usize = 8;

// A refusal by its numbers: which it is, its text line and its column.
fn numbers(refused: Refused) -> [u64; 3]
    ensures { result ≡ number_of refused.refusal ∷ refused.line ∷ refused.column ∷ [] }
{
    let number = u64::from(u8::from(refused.refusal));
    [number, refused.line as u64, refused.column as u64]
}

// What is told of a translation: how many steps it has, or why there is none.
fn translation_told(made: Result<usize, Refused>) -> [u64; TOLD]
    ensures { result ≡ translation_told made }
{
    match made {
        Ok(steps) => [0, 0, steps as u64, 0, 0, 0, 0, 0],
        Err(refused) => {
            let [number, line, column] = numbers(refused);
            [number, line, 0, column, 0, 0, 0, 0]
        }
    }
}

// Reads a recipe text, translates it, and writes its steps.
#[tactic(auto, using(crate::proofs::Telling::unlisted, crate::proofs::Telling::short, crate::proofs::Telling::fits))]
fn translate(text: &[u8], listing: &mut [u64]) -> Result<usize, Refused>
    ensures { row_left listing.new (translation_told result) ≡ translate_words text.now listing.old }
{
    let made = translate_array(read(text)?)?;
    if listing.len() < made.count {
        return Err(at_line(Refusal::NoSpace, 0));
    }
    put_steps(made.steps(), listing);
    Ok(made.count)
}

// Reads a recipe text and translates it into a listing. `told` gets the refusal number, its text line, the number of steps and
// the refusal's column.
pub fn recipe_translate(text: &[u8], listing: &mut [u64], told: &mut [u64; TOLD])
    ensures { row_left listing.new told.new ≡ translate_words text.now listing.old }
{
    *told = translation_told(translate(text, listing));
}

// Which of the four ends it is, its trap's class or its refusal's number, and the place of either: numbers, as the C interface
// (`listing_run`) has them.
fn end_numbers(end: End) -> [u64; 3]
    ensures { result ≡ end_numbers end }
{
    match end {
        End::Finished => [0, 0, 0],
        End::Budget => [1, 0, 0],
        End::Trapped(trap, place, _) => [2, u64::from(u32::from(trap)), place as u64],
        End::Refused(fault, place, _) => [3, u64::from(u32::from(fault)), place as u64],
    }
}

// What is told of a run: its end, the next place, the steps done, the sum of their figures, and the end's text line.
fn ran_told(ran: Ran) -> [u64; TOLD]
    ensures { result ≡ ran_told ran }
{
    let [end, number, place] = end_numbers(ran.end);
    [
        end,
        number,
        place,
        ran.next as u64,
        u64::from(ran.steps),
        ran.clocks,
        u64::from(ran.end.line()),
        0,
    ]
}

// A register set as it crosses.
fn state_of(d: [u32; 8], a: [u32; 8], flags: u8) -> State
    ensures { result ≡ state_of d a flags }
{
    State {
        d,
        a,
        flags: Flags::from(flags),
    }
}

// Runs the first `SLOTS` steps of a listing from a place, with a budget. `told` gets the end, the trap's class or the refusal's
// number, the place of either, the next place, the steps done, the sum of their figures, and the text line of the step that was
// trapped or refused. Two rows and a byte for a `State`: the C interface, over which no struct crosses.
pub fn listing_run(
    listing: &[u64],
    d: &mut [u32; 8],
    a: &mut [u32; 8],
    flags: &mut u8,
    start: usize,
    budget: u32,
    told: &mut [u64; TOLD],
)
    ensures { state_left d.new a.new flags.new told.new ≡ run_words listing.now d.old a.old flags.old start budget }
{
    let before = state_of(*d, *a, *flags);
    let mut slots = [no_step(); SLOTS];
    let ran = run(steps_of(listing, &mut slots), before, start, budget);
    // By a pattern: the borrow checker covers no `*d = ran.state.d` where the field is an array.
    let State {
        d: new_d,
        a: new_a,
        flags: new_flags,
    } = ran.state;
    *d = new_d;
    *a = new_a;
    *flags = u8::from(new_flags);
    *told = ran_told(ran);
}

// Box i of a rack is run, and its registers and flags are written. Rows and a place: of a `zip` of several `iter_mut` a proof
// knows nothing afterwards.
fn run_box(
    steps: &[Step],
    d: &mut [u32],
    a: &mut [u32],
    flags: &mut [u8],
    i: usize,
    start: usize,
    budget: u32,
) -> Ran
    requires { (8 * i + 8 ≤ length d.old) × (8 * i + 8 ≤ length a.old) × (i < length flags.old) }
    ensures { (result ≡ run_of perform_of steps.now (box_state i d.old a.old flags.old) start budget) × BoxPut i result d.old a.old flags.old d.new a.new flags.new }
{
    let before = state_of(eight_at(d, i), eight_at(a, i), flags[i]);
    let ran = run(steps, before, start, budget);
    // By a pattern, as in `listing_run`.
    let State {
        d: new_d,
        a: new_a,
        flags: new_flags,
    } = ran.state;
    put_eight(d, i, new_d);
    put_eight(a, i, new_a);
    flags[i] = u8::from(new_flags);
    ran
}

// What is told of a rack: how many boxes are run, or why none is.
fn rack_told(plan: Result<usize, TooManyBoxes>) -> [u64; TOLD]
    ensures { result ≡ rack_told plan }
{
    match plan {
        Ok(boxes) => [0, boxes as u64, 0, 0, 0, 0, 0, 0],
        Err(refusal) => [u64::from(u8::from(refusal)), 0, 0, 0, 0, 0, 0, 0],
    }
}

// Runs the first `SLOTS` steps of a listing on a rack of as many boxes as there are flags, each from its own start place and
// with the whole budget. A box has eight words of `d`, of `a` and of `answers`, which gets what `listing_run` tells of it.
// `told` gets the refusal number and how many boxes were run. Rows side by side: the C interface, over which no struct crosses.
pub fn rack_run(
    listing: &[u64],
    d: &mut [u32],
    a: &mut [u32],
    flags: &mut [u8],
    starts: &[usize],
    budget: u32,
    answers: &mut [u64],
    told: &mut [u64; TOLD],
)
    ensures { rack_left d.new a.new flags.new answers.new told.new ≡ rack_words listing.now d.old a.old flags.old starts.now budget answers.old }
{
    let mut slots = [no_step(); SLOTS];
    let steps = steps_of(listing, &mut slots);
    let words = d.len().min(a.len()).min(answers.len());
    let plan = plan(flags.len(), starts.len(), words / TOLD);
    // By index: see `run_box`; the rows are the C interface's.
    for i in 0..plan.unwrap_or(0) {
        let ran = run_box(steps, d, a, flags, i, starts[i], budget);
        put_eight(answers, i, ran_told(ran));
    }
    *told = rack_told(plan);
}

// Prints the first `SLOTS` steps of a listing, as the program `recipe` does, and answers how many bytes it wrote.
pub fn listing_print(width: u8, listing: &[u64], out: &mut [u8]) -> usize
    ensures { written out.new result ≡ writing out.old 0 (listing_text width (first_of listing.now)) }
{
    let mut slots = [no_step(); SLOTS];
    print(width, steps_of(listing, &mut slots), out)
}

// What the program `recipe` prints for the text that it read.
pub fn recipe_answer(text: &[u8], out: &mut [u8]) -> usize
    ensures { written out.new result ≡ writing out.old 0 (answer_of text.now) }
{
    answer(text, out)
}

// The flags that document 01 promises behind a recipe, as bits (the C interface, `recipe_run`): all five, or X alone.
fn promised(codes: Option<Flags>) -> u8
    ensures { result ≡ promised_of codes }
{
    match codes {
        None => 16,
        Some(_) => 31,
    }
}

// Those flags.
fn ccr_after(x: bool, codes: Option<Flags>) -> u8
    ensures { result ≡ ccr_after x codes }
{
    match codes {
        None => { if x { 16 } else { 0 } }
        Some(flags) => u8::from(flags),
    }
}

// Reads a recipe text and runs it on a register set. `told` gets the refusal number, its text line, a mask of the flags
// that are promised, the steps, the sum of their figures and the refusal's column. A flag that is not promised is left 0.
// Rows and a byte as in `listing_run`: the C interface.
pub fn recipe_run(
    text: &[u8],
    d: &mut [u32; 8],
    a: &mut [u32; 8],
    flags: &mut u8,
    told: &mut [u64; TOLD],
)
    ensures { state_left d.new a.new flags.new told.new ≡ recipe_run_words text.now d.old a.old flags.old }
{
    let before = state_of(*d, *a, *flags);
    match run_text(text, before) {
        Ok(ran) => {
            // By a pattern, as in `listing_run`.
            let RecipeRun {
                d: new_d,
                a: new_a,
                ..
            } = ran;
            *d = new_d;
            *a = new_a;
            *flags = ccr_after(ran.x, ran.codes);
            let mask = u64::from(promised(ran.codes));
            *told = [0, 0, mask, u64::from(ran.steps), ran.clocks, 0, 0, 0];
        }
        Err(refused) => {
            *flags = u8::from(before.flags);
            let mask = u64::from(promised(Some(before.flags)));
            let [number, line, column] = numbers(refused);
            *told = [number, line, mask, 0, 0, column, 0, 0];
        }
    }
}
