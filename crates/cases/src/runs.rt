// A row of runs.tsv, by its columns: 0 name; 1 start place, 2 budget, 3 length of the listing; 4 D0, 5 D1, 6 A1, 7 flags before;
// 8 to 14 what is told; 15 D0, 16 D1, 17 A1, 18 flags after; then the listing's words. Those of its length that the row does not
// give are ADD.L D0,D1. All other registers have fixed values and keep them. bindings/c/gromavelush.h shows the words, and what
// is told.
ghost use Rattle.std.specs.Prelude.{◌≡◌, length};

use crate::fields::{byte, long, numbers_of, told_of};
use recipe_calls::{TOLD, listing_run};
use text::types::TAB;

// The numbers before the words, and as many words as a listing may have.
const HEAD: usize = 18;

const WORDS: usize = 300;

const NUMBERS: usize = HEAD + WORDS;

const ADD: u64 = 0x01_0002_0200;

// A state, and what is told of the run that led to it.
#[derive(Clone, Copy, PartialEq, Eq)]
struct Run {
    d: [u32; 8],
    a: [u32; 8],
    flags: u8,
    told: [u64; TOLD],
}

// D0, D1, A1 and flags, as a row has them.
fn run_of(numbers: &[u64], told: [u64; TOLD]) -> Run
    requires { length numbers.now ≡ 4 }
{
    let (d0, d1, a1) = (long(numbers[0]), long(numbers[1]), long(numbers[2]));
    Run {
        d: [d0, d1, 0x2222, 0x3333, 0x4444, 0x5555, 0x6666, 0x7777],
        a: [0x8000, a1, 0xa000, 0xb000, 0xc000, 0xd000, 0xe000, 0xf000],
        flags: byte(numbers[3]),
        told,
    }
}

// A row's listing, where a run of it starts and with what budget, the state before, and the run that it ought to be.
#[derive(Clone, Copy)]
struct Case<'a> {
    listing: &'a [u64],
    start: u64,
    budget: u32,
    before: Run,
    after: Run,
}

impl Case<'_> {
    fn run(&self, from: Run, start: u64, budget: u32) -> Run {
        let Run {
            mut d,
            mut a,
            mut flags,
            mut told,
        } = from;
        listing_run(
            self.listing,
            &mut d,
            &mut a,
            &mut flags,
            start as usize,
            budget,
            &mut told,
        );
        Run { d, a, flags, told }
    }

    // The run that continues another: steps and figures add.
    fn continued(&self, first: Run, budget: u32) -> Run {
        let mut second = self.run(first, first.told[3], budget);
        second.told[4] = second.told[4].wrapping_add(first.told[4]);
        second.told[5] = second.told[5].wrapping_add(first.told[5]);
        second
    }

    // Halted after so many steps and continued. One that was trapped or refused is not continued (document 01).
    fn halts_after(&self, steps: u32) -> bool {
        let first = self.run(self.before, self.start, steps);
        let run = if first.told[0] > 1 {
            first
        } else {
            self.continued(first, self.budget.wrapping_sub(steps))
        };
        first.told[4] == u64::from(steps) && run == self.after
    }

    // Run whole, and halted after any number of its steps.
    fn is_as_told(&self) -> bool {
        let whole = self.run(self.before, self.start, self.budget);
        whole == self.after && (0..=long(whole.told[4])).all(|steps| self.halts_after(steps))
    }
}

// Whether the row's run is as the row has it; none where the row does not read.
pub(crate) fn runs(row: &[u8]) -> Option<bool> {
    let mut numbers = [ADD; NUMBERS];
    let count = numbers_of(row.split(|b| *b == TAB).skip(1), &mut numbers)?;
    let (head, words) = numbers.split_at(HEAD);
    let listing = words.get(..head[2] as usize)?;
    if count.checked_sub(HEAD)? > listing.len() {
        return None;
    }
    let case = Case {
        listing,
        start: head[0],
        budget: long(head[1]),
        before: run_of(&head[3..7], [1; TOLD]),
        after: run_of(&head[14..18], told_of(&head[7..14])),
    };
    Some(case.is_as_told())
}
