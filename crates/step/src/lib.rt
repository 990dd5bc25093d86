// The step machine: a register set, one step on it, and a run of a listing of steps with a budget.
//
// Every public function takes every input: none has a `requires`. Each has one `ensures`, an
// equation that gives its whole answer and all that is lent to it, by a definition of specs/ (`fetch` and
// `store` by the library's `slice_index_or` and `slice_set`). Nothing is assumed.
#![tactic(auto)]

pub mod forms;
pub mod lent;
pub mod racks;
pub mod registers;
pub mod runs;
pub mod steps;
