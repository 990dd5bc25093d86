// Counter recipes: text is read to a recipe, a recipe is translated to a listing of 68000 steps, a listing or a refusal
// is printed, and a recipe is run on a register set.
//
// Every public function takes every input: none has a `requires`. Each has one `ensures`, an equation that gives its
// whole answer and all that is lent to it, by a definition of specs/. Nothing is assumed.
#![tactic(auto)]

pub mod lent;
pub mod lines;
pub mod printer;
pub mod reader;
pub mod runner;
pub mod translator;
pub mod types;
