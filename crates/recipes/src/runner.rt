// The whole way, from a text or a recipe to what is printed of it, and to the registers that it leaves: what document 01's
// table of lines makes of its numbers.
ghost use Rattle.std.specs.Prelude.{◌≡◌};
ghost use Rattle.recipes.specs.Demand.{recipe_run_of, text_run_of};
ghost use Rattle.recipes.specs.Making.{codes_after};
ghost use Rattle.recipes.specs.Printer.{printed_of, answer_of};
ghost use Rattle.text.specs.Wrote.{written, writing};

use super::lines::way_of;
use super::printer::{print, print_refusal};
use super::reader::read;
use super::translator::translate_array;
use super::types::{Line, Recipe, RecipeRun, Refused, STEPS_MAX};
use alu::types::Flags;
use step::lent::run;
use step::registers::State;

// What is told of the flags behind the last line; with no line they are as they were.
fn codes_after(lines: &[Line], flags: Flags) -> Option<Flags>
    ensures { result ≡ codes_after lines.now flags }
{
    let Some(last) = lines.last() else {
        return Some(flags);
    };
    way_of(last.verb).tells.then_some(flags)
}

// Translates a recipe and runs its listing to the end: none has more steps than the budget. A refused recipe is not run.
pub fn run_recipe(recipe: Recipe, state: State) -> Result<RecipeRun, Refused>
    ensures { result ≡ recipe_run_of recipe state }
{
    let made = translate_array(recipe)?;
    let ran = run(made.steps(), state, 0, STEPS_MAX);
    let State { d, a, flags } = ran.state;
    Ok(RecipeRun {
        d,
        a,
        x: flags.x,
        codes: codes_after(recipe.lines(), flags),
        steps: ran.steps,
        clocks: ran.clocks,
    })
}

// Reads a recipe text and runs it.
pub fn run_text(text: &[u8], state: State) -> Result<RecipeRun, Refused>
    ensures { result ≡ text_run_of text.now state }
{
    run_recipe(read(text)?, state)
}

// Prints a recipe's listing, or why it has none.
pub fn print_recipe(recipe: Recipe, out: &mut [u8]) -> usize
    ensures { written out.new result ≡ writing out.old 0 (printed_of recipe) }
{
    match translate_array(recipe) {
        Ok(made) => print(recipe.width, made.steps(), out),
        Err(refused) => print_refusal(refused, out),
    }
}

// What the program `recipe` prints for the text that it read.
#[tactic(auto, unfolding(crate::specs::Printer::answer_of))]
pub fn answer(text: &[u8], out: &mut [u8]) -> usize
    ensures { written out.new result ≡ writing out.old 0 (answer_of text.now) }
{
    match read(text) {
        Ok(recipe) => print_recipe(recipe, out),
        Err(refused) => print_refusal(refused, out),
    }
}
