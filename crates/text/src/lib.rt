// Texts as bytes: how a byte parts one, numbers in decimal and in hexadecimal, both ways, and writing into a lent slice.
//
// Every public function takes every input: none has a `requires`. Each has one `ensures`, an equation that gives its
// whole answer and all that is lent to it, by a definition of specs/. Nothing is assumed.
#![tactic(auto)]

pub mod numbers;
pub mod parts;
pub mod types;
pub mod writers;
