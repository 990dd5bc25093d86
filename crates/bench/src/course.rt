// The run that is shown: before its first step, as a whole, and step by step; and the line that a step comes from.
ghost use Rattle.std.specs.Prelude.{◌<◌};
ghost use Rattle.std.specs.Iterator.{at_most};
ghost use Rattle.recipes.specs.Recipe.{lines_max};

use crate::words::Asked;
use recipes::types::LINES_MAX;
use step::forms::Step;
use step::lent::run;
use step::runs::{Ran, begun, resumed};

// A listing's steps, and what is asked of them.
#[derive(Clone, Copy)]
pub(crate) struct Run<'a> {
    pub listing: &'a [Step],
    pub asked: Asked,
}

impl<'a> Run<'a> {
    pub(crate) fn not_begun(&self) -> Ran {
        begun(self.asked.state, self.asked.from)
    }

    pub(crate) fn whole(&self) -> Ran {
        let Asked { state, from, steps } = self.asked;
        run(self.listing, state, from, steps)
    }

    // One step after the other.
    pub(crate) fn steps(&self) -> Steps<'a> {
        Steps {
            listing: self.listing,
            ran: self.not_begun(),
            left: self.whole().steps,
        }
    }

    // The text line of the step at a place, if there is one.
    pub(crate) fn text_line_at(&self, place: usize) -> Option<u8> {
        self.listing.get(place).map(|step| step.line)
    }
}

// A step that was done, and how the run stood before it and behind it.
#[derive(Clone, Copy)]
pub(crate) struct Done {
    pub step: Step,
    pub before: Ran,
    pub after: Ran,
}

// The steps that are still to be done, from where a run halted.
#[derive(Clone, Copy)]
pub(crate) struct Steps<'a> {
    listing: &'a [Step],
    ran: Ran,
    left: u32,
}

impl Iterator for Steps<'_> {
    type Item = Done;

    ghost remaining = { λ s. at_most s.left };

    fn next(&mut self) -> Option<Done> {
        let left = self.left.checked_sub(1)?;
        let before = self.ran;
        let step = *self.listing.get(before.next)?;
        let after = resumed(self.listing, before, 1);
        self.ran = after;
        self.left = left;
        Some(Done {
            step,
            before,
            after,
        })
    }
}

// The recipe line, from 0, of a step: line k is text line k + 2. Of a step with no line the first.
pub(crate) fn line_of(step: Step) -> usize
    ensures { result < lines_max }
{
    usize::from(step.line).saturating_sub(2).min(LINES_MAX - 1)
}
