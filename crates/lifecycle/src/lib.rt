// What opens and locks a connection: the handled events of document 01's opening note. What a function doesn't set stays as it is.
#![tactic(auto)]

ghost use Rattle.std.specs.Prelude.{◌≡◌};
ghost use Rattle.effects.specs.ByEvent.{by_event};

mod locking;

pub use crate::locking::lock;
use effects::{NO_ACTIONS, Transition, handled};
use protocol::{Actions, Outcome, orders};
use record::Connection;

// UPPER_START_HANDSHAKE: sends a hello.
pub fn start_handshake(transition: Transition) -> Outcome
    ensures { result ≡ by_event 0 transition }
{
    handled(
        Connection {
            h: transition.number,
            ..transition.moved()
        },
        Actions {
            message: orders::HELLO,
            h: orders::START,
            ..NO_ACTIONS
        },
    )
}

// A good SC_HELLO: opens the connection and starts both drivers.
pub fn open_connection(transition: Transition) -> Outcome
    ensures { result ≡ by_event 11 transition }
{
    let input = transition.input;
    handled(
        Connection {
            h: 0,
            prover: transition.number,
            verifier: transition.number,
            dat: transition.number,
            ..transition.moved()
        },
        Actions {
            prover: orders::START,
            verifier: orders::START,
            h: orders::CANCEL,
            hp: orders::START,
            hv: orders::START,
            dat: orders::START,
            dat_seconds: input.seconds,
            verifier_suite: input.suites.verifier,
            prover_suite: input.suites.prover,
            ..NO_ACTIONS
        },
    )
}
