// The 68000's register operations as pure functions on values and flags, after the crate m68k.
//
// Every public function takes every input: none has a `requires`. Each has one `ensures`, an
// equation with a definition of specs/ that gives its whole answer. Nothing is assumed.
#![tactic(auto)]

pub mod bit_manip;
pub mod conditions;
pub mod integer_arith;
pub mod shift_rotate;
pub mod types;
