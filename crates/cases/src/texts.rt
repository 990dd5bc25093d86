// Rows that have a recipe's text behind their name.
//
// Of refusals.tsv: all that is printed for it.
// Of recipes.tsv, by their columns: 2 flags, 3 to 10 D0 to D7 before; 11 to 16 what is told (bindings/c/gromavelush.h); 17 flags,
// 18 to 25 D0 to D7 after. The address registers have fixed values and keep them.
use crate::fields::{ROOM, byte, long, numbers_of, text_of, told_of};
use recipe_calls::{TOLD, recipe_answer, recipe_run};
use text::types::TAB;

// Whether all that is printed for the row's text is as the row has it; none where the row does not read. Behind what is printed,
// and behind what ought to be, stands 0.
pub(crate) fn prints(row: &[u8]) -> Option<bool> {
    let mut fields = row.split(|b| *b == TAB).skip(1);
    let mut text = [0u8; ROOM];
    let mut wanted = [0u8; ROOM];
    let mut printed = [0u8; ROOM];
    let length = text_of(fields.next()?, &mut text)?;
    let wanted_length = text_of(fields.next()?, &mut wanted)?;
    if fields.next().is_some() {
        return None;
    }
    let printed_length = recipe_answer(&text[..length], &mut printed);
    Some(printed_length == wanted_length && printed == wanted)
}

// The numbers of a row of recipes.tsv.
const NUMBERS: usize = 24;

const FIXED: [u32; 8] = [8, 9, 10, 11, 12, 13, 14, 0xffff_ffff];

fn registers(numbers: &[u64]) -> [u32; 8] {
    let mut registers = [0; 8];
    for (register, number) in registers.iter_mut().zip(numbers) {
        *register = long(*number);
    }
    registers
}

// Whether the row's text, run by one call, leaves registers and flags and tells what the row has; none where the row does not read.
pub(crate) fn runs(row: &[u8]) -> Option<bool> {
    let mut fields = row.split(|b| *b == TAB).skip(1);
    let mut text = [0u8; ROOM];
    let mut numbers = [0u64; NUMBERS];
    let length = text_of(fields.next()?, &mut text)?;
    if numbers_of(fields, &mut numbers)? != NUMBERS {
        return None;
    }
    let mut d = registers(&numbers[1..9]);
    let mut a = FIXED;
    let mut flags = byte(numbers[0]);
    let mut told = [1u64; TOLD];
    recipe_run(&text[..length], &mut d, &mut a, &mut flags, &mut told);
    Some(
        told == told_of(&numbers[9..15])
            && u64::from(flags) == numbers[15]
            && d == registers(&numbers[16..24])
            && a == FIXED,
    )
}
