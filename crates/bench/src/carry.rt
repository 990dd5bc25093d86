// Carries that went out of a number on the way: the X that an add, sub or up line left behind its last step. Of the recipe's
// last line the table's end row has it; of any other the next line makes another X, and it is told here.
use crate::course::{Done, Run, line_of};
use crate::pen::Pen;
use recipes::lines::target;
use recipes::types::{LINES_MAX, Recipe, Verb};

// Of each line the number that a carry went out of, if one did.
type Carries = [Option<u8>; LINES_MAX];

// Whether X behind a line of this verb is a carry or borrow out of its number. (X behind `neg` says that it was not 0.)
fn carries(verb: Verb) -> bool {
    matches!(verb, Verb::Add | Verb::Sub | Verb::Up)
}

// Of the lines of a recipe, other than its last, that were ended in a run.
fn carried(recipe: &Recipe, run: Run) -> Carries {
    let mut out = [None; LINES_MAX];
    for Done { step, after, .. } in run.steps() {
        let ended = run.text_line_at(after.next) != Some(step.line);
        let k = line_of(step);
        let line = recipe.lines[k];
        if ended && k + 1 < recipe.count && after.state.flags.x && carries(line.verb) {
            out[k] = Some(target(line));
        }
    }
    out
}

// The line of a number, where a carry went out of it. Line k, from 0, is text line k + 2.
fn put_carry(pen: &mut Pen, out: &Carries, number: u8) {
    let many = out.iter().filter(|it| **it == Some(number)).count();
    if many == 0 {
        return;
    }
    let end = if many == 1 { "" } else { "s" };
    write!(pen, "carry out of number {number} at line{end}");
    let mut comma = "";
    for (k, it) in out.iter().enumerate() {
        if *it == Some(number) {
            write!(pen, "{comma} {}", k + 2);
            comma = ",";
        }
    }
    writeln!(pen);
}

// The lines of all numbers.
pub(crate) fn put_carries(pen: &mut Pen, recipe: &Recipe, run: Run) {
    let out = carried(recipe, run);
    for number in 0..8 {
        put_carry(pen, &out, number);
    }
}
