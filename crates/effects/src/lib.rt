// What a handled event does, event by event: the definition that `lifecycle`, `attestation`, `renewal` and `transfer` promise, and the
// proof that it is what the rules of `protocol` say (`specs`, `proofs`). Here is what these crates share: what they are given of an
// event, the empty order sheet, and the outcome that they give.
#![tactic(auto)]

ghost use Rattle.std.specs.Prelude.{◌≡◌, cond, eqb};
ghost use Rattle.effects.specs.ByEvent.{moved_alone};
ghost use Rattle.protocol.specs.declared.Answer.TheVariants.{Handled};

use event::Input;
use protocol::{Actions, Answer, Outcome, orders};
use record::Connection;

// The empty order sheet.
pub const NO_ACTIONS: Actions = Actions {
    message: orders::NONE,
    prover: orders::NONE,
    verifier: orders::NONE,
    h: orders::NONE,
    hp: orders::NONE,
    hv: orders::NONE,
    dat: orders::NONE,
    ra: orders::NONE,
    ack: orders::NONE,
    dat_seconds: 0,
    bit: 0,
    deliver: false,
    verifier_suite: 0,
    prover_suite: 0,
    payload_slice: orders::NONE,
    payload_len: 0,
};

// An event that is handled: the record before it, what the step reads of its call, the state that follows, and its number.
#[derive(Clone, Copy, Debug, PartialEq, Eq)]
pub struct Transition {
    pub before: Connection,
    pub input: Input,
    pub to: u32,
    pub number: u32,
}

impl Transition {
    // The record after an event that changes the state and the number alone.
    pub fn moved(self) -> Connection
        ensures { result ≡ moved_alone self }
    {
        Connection {
            state: self.to,
            handled: self.number,
            ..self.before
        }
    }
}

// The outcome of a handled event.
pub fn handled(connection: Connection, actions: Actions) -> Outcome
    ensures { result ≡ record { answer = Handled; connection = connection; actions = actions } }
{
    Outcome {
        answer: Answer::Handled,
        connection,
        actions,
    }
}

// The order that ends a driver or a timer which may be off: one that is off gets none.
pub fn order_if_on(order: u32, tag: u32) -> u32
    ensures { result ≡ cond (eqb tag 0) 0 order }
{
    match tag {
        0 => orders::NONE,
        _ => order,
    }
}
