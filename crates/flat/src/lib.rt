// The outcome of a step as a host in C holds it: record and actions in numbers.
#![tactic(auto)]

ghost use Rattle.flat.specs.Written.{Written};

use protocol::{Answer, Outcome};

// Writes an outcome and gives its answer. Numbers and slots are two parameters from here to the exports, since the C interface
// lends two arrays. The arm of each event calls this: an outcome that is handed on through several functions is copied at each.
pub fn put(numbers: &mut [u32; 12], slots: &mut [u32; 16], outcome: Outcome) -> Answer
    ensures { Written outcome result numbers.new slots.new }
{
    *numbers = outcome.connection.into();
    *slots = outcome.actions.into();
    outcome.answer
}
