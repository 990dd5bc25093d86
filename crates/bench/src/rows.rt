// A run as plain rows, one before the first step and one after each: the place, D0 to D7, A0 to A7 as eight digits, X N Z V C
// as 0 or 1, tabs between. A run that is refused at its start has no rows: it prints `refused`, the number and the place.
use crate::course::Run;
use crate::pen::{Bits, Hex, Pen};
use step::registers::State;
use step::runs::{End, Ran};

fn put_row(pen: &mut Pen, ran: Ran) {
    let State { d, a, flags } = ran.state;
    write!(pen, "{}", ran.next);
    for value in d.iter().chain(a.iter()) {
        write!(pen, "\t{}", Hex(*value));
    }
    writeln!(pen, "{}", Bits('\t', flags));
}

pub(crate) fn put_run(pen: &mut Pen, run: Run) {
    if let End::Refused(fault, place, _) = run.whole().end {
        writeln!(pen, "refused\t{}\t{place}", u32::from(fault));
        return;
    }
    put_row(pen, run.not_begun());
    for done in run.steps() {
        put_row(pen, done.after);
    }
}
