// A run of a listing of steps with a budget.
ghost use Rattle.std.specs.Prelude.{◌≡◌, ◌-◌, take};
ghost use Rattle.step.specs.Perform.{perform_of};
ghost use Rattle.step.specs.declared.runs.End.TheVariants as End;
ghost use Rattle.step.specs.Run.{ends, end_line, run_of, resumed_of};
ghost use Rattle.step.specs.Lent.{held, ran_in};
ghost use Rattle.step.specs.Course.{came_out, is_done, course_of, stop_of, begin_of, Advanced, end_at, stood_at, nowhere, halted_of, left_of, Ready, Halts};

use super::forms::Step;
use super::lent::run;
use super::registers::State;
use super::steps::{Came, Fault, Outcome, Trap, perform_on};
use alu::types::Flags;

// The slots of a listing that stands in an array.
pub const SLOTS: usize = 256;

// How a run ends; a trap and a refusal with their place, and with the text line of the step there.
#[derive(Clone, Copy)]
pub enum End {
    Finished,
    Budget,
    Trapped(Trap, usize, u8),
    Refused(Fault, usize, u8),
}

impl End {
    // The text line of the step that was trapped or refused; 0 where there is none, as document 02 numbers it ("0 with number 10").
    pub fn line(self) -> u8
        ensures { result ≡ end_line self }
    {
        match self {
            End::Finished | End::Budget => 0,
            End::Trapped(_, _, line) => line,
            End::Refused(_, _, line) => line,
        }
    }
}

// What a run hands back, flat as document 01 lists it. `next` is the place to go on from; `clocks` the sum of the steps' figures.
// `Left` and `Boxed` say the same of registers that stay with the caller: compare/src/ported.rs has the layouts of all three.
#[derive(Clone, Copy)]
pub struct Ran {
    pub end: End,
    pub state: State,
    pub next: usize,
    pub steps: u32,
    pub clocks: u64,
}

// What a run on registers that are lent says beside them.
#[derive(Clone, Copy)]
pub struct Left {
    pub end: End,
    pub next: usize,
    pub steps: u32,
    pub clocks: u64,
    pub flags: Flags,
}

// Where a run stands between two steps: whether it goes on, how the last step came out, the place behind it, the figures
// so far, and the flags. The registers are not in it: each step is lent them. `going` is the loop's one test:
// with the run's first apart from it, in `begin`, a step took 57.0, and 62.5 without (docs/PERFORMANCE.md).
#[derive(Clone, Copy)]
pub(crate) struct Course {
    pub going: bool,
    pub came: Came,
    pub next: usize,
    pub clocks: u64,
    pub flags: Flags,
}

// Where a run stands. The flags go over one by one, as in `said` of steps.
fn stands(going: bool, came: Came, next: usize, clocks: u64, flags: Flags) -> Course
    ensures { result ≡ course_of going came next clocks flags }
{
    Course {
        going,
        came,
        next,
        clocks,
        flags: Flags { ..flags },
    }
}

// The place that a run does not go beyond: the end of the listing, or where its budget is spent.
// (By `min` and `saturating_sub` a step takes 62.4 instructions in the archive as it ships, and 58.5 so.)
pub(crate) fn stop_at(len: usize, start: usize, budget: u32) -> usize
    ensures { result ≡ stop_of len start budget }
{
    if start < len {
        let rest = len - start;
        if rest < budget as usize {
            len
        } else {
            start + budget as usize
        }
    } else {
        start
    }
}

// Where a run starts.
pub(crate) fn begin(len: usize, start: usize, stop: usize, flags: Flags) -> Course
    ensures { result ≡ begin_of len start stop flags }
{
    if start <= len {
        stands(start < stop, Came::Done, start, 0, flags)
    } else {
        stands(false, Came::StartPastEnd, start, 0, flags)
    }
}

// One step of a run that goes on. The next place is worked out before the step is taken, and is the same whatever comes of
// it, so that the compiler has one place to keep. (One `stands`, over `&&`, tried as steps.rt says: 62.3)
pub(crate) fn advance(
    d: &mut [u32; 8],
    a: &mut [u32; 8],
    stop: usize,
    on: Course,
    step: Step,
) -> Course
    requires { Ready stop on }
    ensures { Advanced stop on (perform_of (held d.old a.old on.flags) step) d.new a.new result }
{
    let next = on.next + 1;
    let acted = perform_on(d, a, on.flags, step.size, step.form);
    let came = acted.came;
    let figure = u64::from(acted.clocks);
    let clocks = on.clocks + figure;
    if came == Came::Done {
        stands(next < stop, came, next, clocks, acted.flags)
    } else {
        stands(false, came, next, clocks, acted.flags)
    }
}

// Whether each step so far was done. Only the last can have come out otherwise.
pub(crate) fn all_done(on: Course) -> bool
    ensures { result ≡ is_done (came_out on.came) }
{
    on.came == Came::Done
}

// How a run ends, and where it would go on.
#[derive(Clone, Copy)]
struct Halted {
    end: End,
    next: usize,
}

// At a place at which a run takes no step more.
fn end_at(len: usize, next: usize) -> End
    ensures { result ≡ end_at len next }
{
    if next < len {
        End::Budget
    } else {
        End::Finished
    }
}

// The place before; 0 stays.
pub(crate) fn place_before(next: usize) -> usize
    ensures { result ≡ next - 1 }
{
    next.saturating_sub(1)
}

// Where a refused step stood, if `next` is the place behind it; a run that starts past the end has taken none.
fn stood_at(fault: Fault, next: usize) -> usize
    ensures { result ≡ stood_at fault next }
{
    match fault {
        Fault::BadSmall | Fault::NoSuchSize | Fault::NoSuchRegister => place_before(next),
        Fault::StartPastEnd => next,
    }
}

// `next` is the place behind the last step, which came out so and is of this text line. After a trap the run goes on there;
// a refused step is itself the next place.
fn halted_after(outcome: Outcome, len: usize, next: usize, line: u8) -> Halted
    ensures { result ≡ halted_of outcome len next line }
{
    match outcome {
        Outcome::Done => Halted {
            end: end_at(len, next),
            next,
        },
        Outcome::Trapped(trap) => Halted {
            end: End::Trapped(trap, place_before(next), line),
            next,
        },
        Outcome::Refused(fault) => {
            let at = stood_at(fault, next);
            Halted {
                end: End::Refused(fault, at, line),
                next: at,
            }
        }
    }
}

// What a run from `start` that has ended says, if its last step is of this text line.
pub(crate) fn left_off(len: usize, start: usize, on: Course, line: u8) -> Left
    requires { Halts len start on line }
    ensures { result ≡ left_of len start on line }
{
    let halted = halted_after(Outcome::from(on.came), len, on.next, line);
    let taken = halted.next - start;
    Left {
        end: halted.end,
        next: halted.next,
        steps: taken as u32,
        clocks: on.clocks,
        flags: on.flags,
    }
}

// What a run says, and the registers that it left.
pub(crate) fn ran_of(left: Left, d: [u32; 8], a: [u32; 8]) -> Ran
    ensures { result ≡ ran_in left d a }
{
    Ran {
        end: left.end,
        state: State {
            d,
            a,
            flags: left.flags,
        },
        next: left.next,
        steps: left.steps,
        clocks: left.clocks,
    }
}

// A run of a listing that stands in an array, in its first `count` steps; a count above `SLOTS` means all of them. Document 01 asks
// for an array's form: "fixed arrays come first".
pub fn run_array(
    listing: [Step; SLOTS],
    count: usize,
    state: State,
    start: usize,
    budget: u32,
) -> Ran
    ensures { result ≡ run_of perform_of (take count listing) state start budget }
{
    let len = count.min(SLOTS);
    run(&listing[..len], state, start, budget)
}

// A run before its first step.
pub fn begun(state: State, place: usize) -> Ran
    ensures { result ≡ ends End.Budget state place }
{
    Ran {
        end: End::Budget,
        state,
        next: place,
        steps: 0,
        clocks: 0,
    }
}

// A run taken up again where it halted, with a budget of its own: steps and clocks add. It takes any `Ran`, so that a
// sum may wrap; no run's does.
pub fn resumed(listing: &[Step], ran: Ran, budget: u32) -> Ran
    ensures { result ≡ resumed_of perform_of listing.now ran budget }
{
    let more = run(listing, ran.state, ran.next, budget);
    Ran {
        steps: ran.steps.wrapping_add(more.steps),
        clocks: ran.clocks.wrapping_add(more.clocks),
        ..more
    }
}
