// The thin translator over what is lent: a listing as a row of step records.
ghost use Rattle.std.specs.Prelude.{◌≡◌};
ghost use Rattle.recipes.specs.Listing.{translated, translate_of};

use super::translator::translate_array;
use super::types::{Recipe, Refusal, Refused, at_line};
use step::forms::Step;

// Translates a recipe into a listing that is lent, and answers its number of steps. It is written only when the whole recipe
// is accepted and there is room for all of its steps; the slots past them stay.
pub fn translate(recipe: Recipe, listing: &mut [Step]) -> Result<usize, Refused>
    ensures { translated result listing.new ≡ translate_of recipe listing.old }
{
    let made = translate_array(recipe)?;
    let steps = made.steps();
    if listing.len() < steps.len() {
        return Err(at_line(Refusal::NoSpace, 0));
    }
    listing[..steps.len()].copy_from_slice(steps);
    Ok(steps.len())
}
