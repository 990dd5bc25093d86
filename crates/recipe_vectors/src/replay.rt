// Replays one vector: its text is read and translated, and the listing is run halted at every place; then the text is
// run as a whole.
ghost use Rattle.std.specs.Prelude.{◌≤◌};

use crate::header::Vector;
use recipes::reader::read;
use recipes::runner::run_text;
use recipes::translator::translate_array;
use recipes::types::RecipeRun;
use std::fmt;
use step::forms::Step;
use step::registers::State;
use step::runs::{End, Ran, begun, resumed};

// What is not as it ought to be.
#[derive(Clone, Copy)]
pub(crate) enum Slip {
    Malformed,
    Reading,
    Translation,
    Count,
    Halt,
    Middle,
    End,
    Clocks,
    Data,
    Address,
    Flags,
    Recipe,
}

impl fmt::Display for Slip {
    fn fmt<W: fmt::Write>(&self, f: &mut fmt::Formatter<W>) -> fmt::Result {
        f.write_str(match self {
            Slip::Malformed => "no vector",
            Slip::Reading => "the text is refused",
            Slip::Translation => "the recipe is refused",
            Slip::Count => "the number of steps",
            Slip::Halt => "the halt",
            Slip::Middle => "the middle",
            Slip::End => "the end",
            Slip::Clocks => "the clocks",
            Slip::Data => "the data registers",
            Slip::Address => "the address registers",
            Slip::Flags => "the flags",
            Slip::Recipe => "the recipe run as a whole",
        })
    }
}

// The first slip, and the place that the run was halted at.
#[derive(Clone, Copy)]
pub(crate) struct Failure {
    pub slip: Slip,
    pub place: u32,
}

impl Slip {
    pub(crate) fn at(self, place: u32) -> Failure {
        Failure { slip: self, place }
    }
}

// A vector, and the listing of its recipe.
#[derive(Clone, Copy)]
struct Case<'a> {
    vector: &'a Vector,
    listing: &'a [Step],
}

impl Case<'_> {
    // One more run, from where another halted.
    fn run(&self, ran: Ran, budget: u32, runs: &mut u64) -> Ran {
        *runs = runs.wrapping_add(1);
        resumed(self.listing, ran, budget)
    }

    // The run before its first step.
    fn begun(&self) -> Ran {
        begun(self.vector.before, 0)
    }

    // Whether a run has halted at the place, or at the end has finished.
    fn stands_at(&self, ran: &Ran, place: u32) -> bool {
        let ended = if place < self.vector.steps {
            matches!(ran.end, End::Budget)
        } else {
            matches!(ran.end, End::Finished)
        };
        ended && ran.next == place as usize && ran.steps == place
    }

    // Whether a state is as told of the middle.
    fn is_there(&self, state: &State) -> bool {
        let there = &self.vector.there;
        state.d == there.data && state.a == self.vector.before.a && there.same_flags(state.flags)
    }

    // A run that ought to have halted at the place; what stands there is told only of the middle.
    fn judge_halt(&self, ran: &Ran, place: u32) -> Result<(), Slip> {
        if !self.stands_at(ran, place) {
            return Err(Slip::Halt);
        }
        if place == self.vector.middle && !self.is_there(&ran.state) {
            return Err(Slip::Middle);
        }
        Ok(())
    }

    // A run that ought to be over.
    fn judge(&self, ran: &Ran) -> Result<(), Slip> {
        if !self.stands_at(ran, self.vector.steps) {
            return Err(Slip::End);
        }
        if ran.clocks != self.vector.clocks {
            return Err(Slip::Clocks);
        }
        if ran.state.d != self.vector.end.data {
            return Err(Slip::Data);
        }
        if ran.state.a != self.vector.before.a {
            return Err(Slip::Address);
        }
        if !self.vector.end.same_flags(ran.state.flags) {
            return Err(Slip::Flags);
        }
        Ok(())
    }

    // Two runs: one to the place, and from there one to the end.
    fn halted_at(&self, place: u32, runs: &mut u64) -> Result<(), Slip>
        requires { place ≤ self.now.vector.now.steps }
    {
        let part = self.run(self.begun(), place, runs);
        let whole = self.run(part, self.vector.steps - place, runs);
        self.judge_halt(&part, place)?;
        self.judge(&whole)
    }

    // The start and the end are places too.
    fn halted_at_each(&self, runs: &mut u64) -> Result<(), Failure> {
        for place in 0..=self.vector.steps {
            self.halted_at(place, runs).map_err(|slip| slip.at(place))?;
        }
        Ok(())
    }

    // Halted after every step: a run of no step, then runs of one.
    fn step_by_step(&self, runs: &mut u64) -> Result<(), Failure> {
        let count = self.vector.steps;
        let mut ran = self.run(self.begun(), 0, runs);
        for place in 0..count {
            self.judge_halt(&ran, place).map_err(|slip| slip.at(place))?;
            ran = self.run(ran, 1, runs);
        }
        self.judge(&ran)
            .and_then(|()| self.judge_halt(&ran, count))
            .map_err(|slip| slip.at(count))
    }
}

// A recipe that was run as a whole.
fn judge_recipe(vector: &Vector, run: &RecipeRun) -> Result<(), Slip> {
    let counted = run.steps == vector.steps && run.clocks == vector.clocks;
    let registers = run.d == vector.end.data && run.a == vector.before.a;
    let told = run.x == vector.end.flags.x && vector.end.same_codes(run.codes);
    if counted && registers && told {
        Ok(())
    } else {
        Err(Slip::Recipe)
    }
}

// Its text is read and translated, and the listing is halted at every place.
fn replay_listing(vector: &Vector, text: &[u8], runs: &mut u64) -> Result<(), Failure> {
    let recipe = read(text).map_err(|_| Slip::Reading.at(0))?;
    let listing = translate_array(recipe).map_err(|_| Slip::Translation.at(0))?;
    if listing.count != vector.steps as usize {
        return Err(Slip::Count.at(0));
    }
    // It would never be met.
    if vector.middle > vector.steps {
        return Err(Slip::Middle.at(0));
    }
    let case = Case {
        vector,
        listing: listing.steps(),
    };
    case.halted_at_each(runs)?;
    case.step_by_step(runs)
}

// Each run that is made is counted in `runs`.
pub(crate) fn replay(vector: &Vector, text: &[u8], runs: &mut u64) -> Result<(), Failure> {
    replay_listing(vector, text, runs)?;
    *runs = runs.wrapping_add(1);
    run_text(text, vector.before)
        .map_err(|_| Slip::Recipe)
        .and_then(|run| judge_recipe(vector, &run))
        .map_err(|slip| slip.at(vector.steps))
}
