// What is asked before an event is handled: the faults of arguments and record, and the condition of the event. Record, code and input
// are three parameters of both and of `decide`, which has each from another function: a struct of them would be made to be taken apart.
#![tactic(auto)]

mod condition;
mod fault;

pub use crate::condition::holds;
pub use crate::fault::lowest_fault;
