// Rows of words: a listing's steps, and a rack's boxes, eight words to each.
ghost use Rattle.std.specs.Prelude.{◌≡◌, map, ◌≤◌, ◌*◌, ◌+◌, length, take};
ghost use Rattle.step.specs.Lent.{over};
ghost use Rattle.recipe_calls.specs.Words.{step_word, first_of};
ghost use Rattle.recipe_calls.specs.Boxes.{eight_at, eight_put};

use super::words::{step_of, step_word};
use step::forms::Step;
use step::runs::SLOTS;

// The steps that the first `SLOTS` words of a listing name, made in slots that are lent: a `Listing` by value is copied once more, and
// takes its bytes of stack twice.
pub(crate) fn steps_of<'a>(words: &[u64], slots: &'a mut [Step; SLOTS]) -> &'a [Step]
    ensures { result.now ≡ first_of words.now }
{
    // By index: of a `zip` with `iter_mut` a proof knows no element afterwards. Tried: `from_fn`, but of its closure, a `match`
    // on `words.get(i)`, the check found no equation.
    let count = SLOTS.min(words.len());
    for (i, word) in words[..count].iter().enumerate() {
        slots[i] = step_of(*word);
    }
    &slots[..count]
}

// The words of steps go to the front of a listing.
#[tactic(auto, using(step::proofs::Rows::over_put))]
pub(crate) fn put_steps(steps: &[Step], listing: &mut [u64])
    requires { length steps.now ≤ length listing.old }
    ensures { listing.new ≡ over (map step_word steps.now) listing.old }
{
    // By index: tried with `zip` and `iter_mut`, of which a proof knows no element afterwards.
    for (i, step) in steps.iter().enumerate() {
        listing[i] = step_word(*step);
    }
}

// Box i's words of a row of registers.
pub(crate) fn eight_at(row: &[u32], i: usize) -> [u32; 8]
    requires { 8 * i + 8 ≤ length row.now }
    ensures { result ≡ eight_at i row.now }
{
    // By index, as in `put_eight`: with `copy_from_slice` a rack of short runs takes a fifth more instructions.
    let mut words = [0; 8];
    for j in 0..8 {
        words[j] = row[8 * i + j];
    }
    words
}

// Box i's words of a row of registers, or of what is told, are written.
pub(crate) fn put_eight<T: Copy>(row: &mut [T], i: usize, words: [T; 8])
    requires { 8 * i + 8 ≤ length row.old }
    ensures { row.new ≡ eight_put i words row.old }
{
    for j in 0..8 {
        row[8 * i + j] = words[j];
    }
}
