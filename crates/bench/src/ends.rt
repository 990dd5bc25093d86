// The program's ends.
use crate::pen::Pen;

// What words and files come from, what gets told when something fails, and what is to go to standard output.
#[derive(Drop)]
pub(crate) struct Ends<'a, R, W> {
    pub rt: &'a R,
    pub told: &'a mut W,
    pub pen: Pen<'a>,
}
