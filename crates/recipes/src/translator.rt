// From a recipe to its listing, and what the listing's steps cost. A number's registers go lowest first, those of halve and
// down highest first. In a contract `long` and `blank` are the definitions of specs/ that the functions of that name are held
// to.
ghost use Rattle.std.specs.Prelude.{◌≡◌, ◌/◌, ◌%◌, ◌*◌, ◌<◌, ◌≤◌, ◌^◌, length, map, take};
ghost use Rattle.recipes.specs.Recipe.{lines_max};
ghost use Rattle.step.specs.Lent.{over};
ghost use Rattle.step.specs.Lines.{with_line};
ghost use Rattle.step.specs.Run.{array_slots};
ghost use Rattle.recipes.specs.Listing.{long, form_of, step_of, blank, blanks, line_steps, numbered_of, array_of, figure_of, clocks_of};
ghost use Rattle.recipes.specs.Making.{act_at, offset_of, steps_by, job_of, job_step, StepOfJob, judge_of, judge_lines, Slotted, Layable};

use super::lines::{Act, Way, check_line, goal, is_width, way_of};
use super::types::{LINES_MAX, Line, Listing, Recipe, Refusal, Refused, at_line};
use alu::types::Size;
use step::forms::{Count, Form, OneOp, Step, with_line};
use step::registers::{D, State};
use step::runs::SLOTS;
use step::steps::perform;

// What the steps of a line have in common: the width, its way, and the lowest registers of its numbers.
#[derive(Clone, Copy)]
pub(crate) struct Job {
    pub width: u8,
    pub way: Way,
    pub from: usize,
    pub to: usize,
}

// Every step of a listing is made here, and gets its text line in `lay_line`.
fn long(form: Form) -> Step
    ensures { result ≡ long form }
{
    Step {
        size: Size::Long,
        form,
        line: 0,
    }
}

// From data register p to data register q.
fn form_of(act: Act, p: u8, q: u8) -> Form
    ensures { result ≡ form_of act p q }
{
    match act {
        Act::One(op) => Form::One(op, D(q)),
        Act::Two(op) => Form::Two(op, D(p), D(q)),
        Act::Shift(op) => Form::Shift(op, Count::Small(1), D(q)),
    }
}

fn step_of(act: Act, p: u8, q: u8) -> Step
    ensures { result ≡ step_of act p q }
{
    long(form_of(act, p, q))
}

// A slot that holds no step of a listing. There is no D255, so that a run that strays into it is refused.
fn blank() -> Step
    ensures { result ≡ blank }
{
    long(Form::One(OneOp::Clr, D(255)))
}

// What step `part` of those at one register does. A copy has two, its CLR and its ADD.
fn act_at(way: Way, first: bool, part: usize) -> Act
    ensures { result ≡ act_at way first part }
{
    if way.clears && part == 0 {
        return Act::One(OneOp::Clr);
    }
    if first { way.first } else { way.other }
}

impl Job {
    fn of(width: u8, line: Line) -> Job
        ensures { result ≡ job_of width line }
    {
        let way = way_of(line.verb);
        Job {
            width,
            way,
            from: line.a as usize * width as usize,
            to: goal(way, line) as usize * width as usize,
        }
    }

    // The steps that the line takes.
    fn steps(self) -> usize
        ensures { (result ≡ steps_by self.way * self.width) × (result ≤ 2 * self.width) }
    {
        let steps = self.width as usize;
        if self.way.clears { 2 * steps } else { steps }
    }

    // Which of a number's registers is the one taken at `index`, from 0.
    fn offset(self, index: usize) -> usize
        requires { index < self.width }
        ensures { (result ≡ offset_of self.way self.width index) × (result < self.width) }
    {
        if self.way.falls {
            self.width as usize - 1 - index
        } else {
            index
        }
    }

    // Step j: the index of the register that it is at, and its part of the steps there.
    fn spot(self, j: usize) -> (usize, usize)
        ensures { result ≡ (j / steps_by self.way, j % steps_by self.way) }
    {
        if self.way.clears {
            (j / 2, j % 2)
        } else {
            (j, 0)
        }
    }

    fn step(self, j: usize) -> Step
        requires { StepOfJob self j }
        ensures { result ≡ job_step self j }
    {
        let (index, part) = self.spot(j);
        let at = self.offset(index);
        let act = act_at(self.way, index == 0, part);
        step_of(act, (self.from + at) as u8, (self.to + at) as u8)
    }
}

// The tests of the lines in turn, and the steps that they take together. Line k, from 0, is text line k + 2.
fn judge_lines(width: u8, lines: &[Line]) -> Result<usize, Refused>
    requires { (0 < width) × ((width ≤ 4) × (length lines.now ≤ lines_max)) }
    ensures { result ≡ judge_lines width lines.now }
{
    let numbers = 8 / width;
    let mut steps = 0;
    for (k, line) in lines.iter().enumerate() {
        check_line(numbers, *line).map_err(move |refusal| at_line(refusal, k + 2))?;
        steps += Job::of(width, *line).steps();
    }
    Ok(steps)
}

// The tests of a recipe, in document 01's order, without that of the room; and the steps that it takes.
fn judge(recipe: &Recipe) -> Result<usize, Refused>
    ensures { result ≡ judge_of recipe.now }
{
    if !is_width(recipe.width) {
        return Err(at_line(Refusal::WidthLine, 1));
    }
    if LINES_MAX < recipe.count {
        return Err(at_line(Refusal::TooManyLines, 0));
    }
    judge_lines(recipe.width, recipe.lines())
}

// The steps of a line, each with the text line, in as many slots.
fn lay_line(width: u8, line: Line, text_line: u8, slots: &mut [Step])
    requires { Slotted width line (length slots.old) }
    ensures { slots.new ≡ map (with_line text_line) (line_steps width line) }
{
    let job = Job::of(width, line);
    for (j, slot) in slots.iter_mut().enumerate() {
        *slot = with_line(job.step(j), text_line);
    }
}

// The steps of the lines, in slots that are blank and lent: by value they would be copied once more. Line k, from 0, is text line k + 2.
// By `at`: lines differ in their number of steps, so no `chunks_exact_mut`; `split_at_mut` would keep the rest by hand in its place.
fn lay(width: u8, lines: &[Line], steps: &mut [Step; SLOTS])
    requires { Layable width lines.now × (steps.old ≡ blanks) }
    ensures { steps.new ≡ over (numbered_of width 2 lines.now) blanks }
{
    let mut at = 0;
    for (k, line) in lines.iter().enumerate() {
        let end = at + Job::of(width, *line).steps();
        lay_line(width, *line, k as u8 + 2, &mut steps[at..end]);
        at = end;
    }
}

// Translates a recipe by value. There are slots for the steps of any recipe (`blanks_fit` of proofs/Settling).
pub fn translate_array(recipe: Recipe) -> Result<Listing, Refused>
    ensures { result ≡ array_of recipe }
{
    let count = judge(&recipe)?;
    let mut steps = [blank(); SLOTS];
    lay(recipe.width, recipe.lines(), &mut steps);
    Ok(Listing { count, steps })
}

// The clock figure of a step, asked of the machine. A step of a recipe has the same figure whatever the registers hold.
fn figure(step: Step) -> u64
    ensures { (result ≡ figure_of step) × (result < 2 ^ 32) }
{
    u64::from(perform(State::default(), step).clocks)
}

pub(crate) fn clocks(steps: &[Step]) -> u64
    requires { length steps.now ≤ array_slots }
    ensures { result ≡ clocks_of steps.now }
{
    steps.iter().map(|step| figure(*step)).sum()
}
