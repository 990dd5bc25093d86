// The numbers of a recipe, by width: which registers they are, their long words, and their whole value in decimal.
ghost use Rattle.std.specs.Prelude.{◌<◌};

use crate::pen::{Hex, Pen};
use std::fmt;

// How many long words a number has at a width.
pub(crate) fn longs_of(width: u8) -> usize
    ensures { 0 < result }
{
    usize::from(width).max(1)
}

// A line that says which registers the numbers are.
pub(crate) fn put_numbering(pen: &mut Pen, width: u8) {
    write!(pen, "numbers:");
    let all = [0, 1, 2, 3, 4, 5, 6, 7];
    for (k, registers) in all.chunks(longs_of(width)).enumerate() {
        let comma = if k == 0 { "" } else { "," };
        write!(pen, "{comma} {k} is");
        for r in registers.iter().rev() {
            write!(pen, " D{r}");
        }
    }
    writeln!(pen);
}

// A number by its long words, the lowest first. It is printed with the highest first, a blank before each.
#[derive(Clone, Copy)]
pub(crate) struct Number<'a>(pub &'a [u32]);

impl Number<'_> {
    pub(crate) fn value(&self) -> u128 {
        let longs = self.0.iter().rev();
        longs.fold(0, |value, long| value << 32 | u128::from(*long))
    }
}

impl fmt::Display for Number<'_> {
    fn fmt<W: fmt::Write>(&self, f: &mut fmt::Formatter<W>) -> fmt::Result {
        for long in self.0.iter().rev() {
            write!(f, " {}", Hex(*long))?;
        }
        Ok(())
    }
}
