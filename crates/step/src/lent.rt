// What works on what is lent: a register set, and a listing as a row of step records. The loop of a run stands here.
ghost use Rattle.std.specs.Prelude.{◌≡◌, ◌≤◌, [], ◌∷◌, take, set, slice_index_or, slice_set};
ghost use Rattle.step.specs.Perform.{perform_of};
ghost use Rattle.step.specs.Run.{array_slots, run_of};
ghost use Rattle.step.specs.Lent.{performed, held, ran_in};

use super::forms::Step;
use super::registers::State;
use super::runs::{Left, Ran, advance, all_done, begin, left_off, place_before, ran_of, stop_at};
use super::steps::{Outcome, perform};
use alu::types::Flags;

// What one step says beside the state that it leaves; see `Performed`.
#[derive(Clone, Copy)]
pub struct Told {
    pub outcome: Outcome,
    pub clocks: u32,
}

// One step on a register set that is lent, and changed there.
pub fn perform_in(state: &mut State, step: Step) -> Told
    ensures { performed result state.new ≡ perform_of state.old step }
{
    let p = perform(*state, step);
    *state = p.state;
    Told {
        outcome: p.outcome,
        clocks: p.clocks,
    }
}

// A run on registers that are lent, and changed there: the one loop, which every other way of running calls. A trap's or a
// refusal's line is read behind it; before a start past the end no step stands either, and the line is 0. Tried as steps.rt says: a
// `&mut State` for the two rows, 61.7; `for step in &listing[start..stop]` with a `break`, and no `going`: 68.1.
pub fn run_in(
    listing: &[Step],
    d: &mut [u32; 8],
    a: &mut [u32; 8],
    flags: Flags,
    start: usize,
    budget: u32,
) -> Left
    ensures { ran_in result d.new a.new ≡ run_of perform_of listing.now (held d.old a.old flags) start budget }
{
    let len = listing.len();
    let stop = stop_at(len, start, budget);
    let mut on = begin(len, start, stop, flags);
    while on.going {
        on = advance(d, a, stop, on, listing[on.next]);
    }
    let line = if all_done(on) {
        0
    } else {
        listing
            .get(place_before(on.next))
            .map_or(0, |step| step.line)
    };
    left_off(len, start, on, line)
}

// A run of a listing that is lent, of any length.
pub fn run(listing: &[Step], state: State, start: usize, budget: u32) -> Ran
    ensures { result ≡ run_of perform_of listing.now state start budget }
{
    let mut d = state.d;
    let mut a = state.a;
    let left = run_in(listing, &mut d, &mut a, state.flags, start, budget);
    ran_of(left, d, a)
}

// A run of one step.
pub(crate) fn run_one(step: Step, d: &mut [u32; 8], a: &mut [u32; 8], flags: Flags) -> Left
    ensures { ran_in result d.new a.new ≡ run_of perform_of (step ∷ []) (held d.old a.old flags) 0 1 }
{
    let one = [step; 1];
    run_in(&one, d, a, flags, 0, 1)
}

// The step at a place of a listing; past the end, `other`.
pub fn fetch(listing: &[Step], at: usize, other: Step) -> Step
    ensures { result ≡ slice_index_or listing.now at other }
{
    listing.get(at).copied().unwrap_or(other)
}

// A step is written to a place of a listing; past the end, nothing is. By index: no proof knows what stands behind a `get_mut`.
pub fn store(listing: &mut [Step], at: usize, step: Step)
    ensures { listing.new ≡ slice_set listing.old at step }
{
    if at < listing.len() {
        listing[at] = step;
    }
}
