// A rack of boxes: one listing on a row of register sets that is lent.
ghost use Rattle.std.specs.Prelude.{◌≡◌, Err};
ghost use Rattle.step.specs.Perform.{perform_of};
ghost use Rattle.step.specs.Rack.{fit_number, boxed_of, plan_of, left, rack_of};

use super::forms::Step;
use super::lent::run;
use super::registers::State;
use super::runs::{End, Ran};

// The most boxes of a rack.
pub const BOXES_MAX: usize = 64;

// What a run says of a box beside the state that it leaves, which its set holds: `Ran` says why it is a struct of its own.
#[derive(Clone, Copy)]
pub struct Boxed {
    pub end: End,
    pub next: usize,
    pub steps: u32,
    pub clocks: u64,
}

impl From<Ran> for Boxed {
    ghost from_gives = { λ ran boxed. boxed ≡ boxed_of ran };

    fn from(ran: Ran) -> Boxed {
        Boxed {
            end: ran.end,
            next: ran.next,
            steps: ran.steps,
            clocks: ran.clocks,
        }
    }
}

// Why a rack is not run: it has more than `BOXES_MAX` sets, or fewer start places or slots than sets.
#[derive(Clone, Copy, Debug, PartialEq, Eq)]
pub struct TooManyBoxes;

// Document 02's number of a refusal.
impl From<TooManyBoxes> for u8 {
    ghost from_gives = { λ refusal number. number ≡ fit_number (Err refusal) };

    fn from(_refusal: TooManyBoxes) -> u8 {
        15
    }
}

// How many boxes are run, of rows of so many sets, start places and slots.
pub fn plan(sets: usize, starts: usize, answers: usize) -> Result<usize, TooManyBoxes>
    ensures { result ≡ plan_of sets starts answers }
{
    if sets <= BOXES_MAX && sets <= starts && sets <= answers {
        Ok(sets)
    } else {
        Err(TooManyBoxes)
    }
}

// Each set is run from its own start place with the whole budget, and changed there; what the run says goes to its slot.
// A refused rack runs no box, and changes nothing.
pub fn rack(
    listing: &[Step],
    sets: &mut [State],
    starts: &[usize],
    budget: u32,
    answers: &mut [Boxed],
) -> Result<usize, TooManyBoxes>
    ensures { left result sets.new answers.new ≡ rack_of perform_of listing.now sets.old starts.now budget answers.old }
{
    // By index: no proof knows what stands behind a `zip` of two `iter_mut` (of one alone it does: `lay_line` of recipes).
    let boxes = plan(sets.len(), starts.len(), answers.len())?;
    for i in 0..boxes {
        let ran = run(listing, sets[i], starts[i], budget);
        sets[i] = ran.state;
        answers[i] = Boxed::from(ran);
    }
    Ok(boxes)
}
