// Rows with suite lists: a call of the step, and the suite choice, asked alone.
#![tactic(auto)]

pub mod choice;
mod lists;
pub mod step;
