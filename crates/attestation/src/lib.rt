// What the drivers of an attestation report, and the messages between them and the peer: the handled events 4, 6, 7, 9, 15 and 16. What
// a function doesn't set stays as it is.
#![tactic(auto)]

ghost use Rattle.std.specs.Prelude.{◌≡◌, cond};
ghost use Rattle.effects.specs.ByEvent.{by_event};

use effects::{NO_ACTIONS, Transition, handled};
use protocol::{Actions, Outcome, orders};
use record::Connection;
use table::states;

// RA_VERIFIER_OK: the peer is attested until RA runs out.
pub fn verifier_ok(transition: Transition) -> Outcome
    ensures { result ≡ by_event 4 transition }
{
    let number = transition.number;
    let waits = transition.to == states::WAIT_FOR_ACK;
    handled(
        Connection {
            verifier: 0,
            ra: number,
            ack: if waits { number } else { transition.before.ack },
            ..transition.moved()
        },
        Actions {
            hv: orders::CANCEL,
            ra: orders::START,
            ack: if waits { orders::START } else { orders::NONE },
            ..NO_ACTIONS
        },
    )
}

// RA_PROVER_OK: we are attested to the peer.
pub fn prover_ok(transition: Transition) -> Outcome
    ensures { result ≡ by_event 7 transition }
{
    let number = transition.number;
    let waits = transition.to == states::WAIT_FOR_ACK;
    handled(
        Connection {
            prover: 0,
            ack: if waits { number } else { transition.before.ack },
            ..transition.moved()
        },
        Actions {
            hp: orders::CANCEL,
            ack: if waits { orders::START } else { orders::NONE },
            ..NO_ACTIONS
        },
    )
}

// RA_VERIFIER_MSG and RA_PROVER_MSG: a driver's message goes to the peer.
pub fn send_report(of_verifier: bool, transition: Transition) -> Outcome
    ensures { result ≡ by_event (cond of_verifier 6 9) transition }
{
    let message = if of_verifier {
        orders::RA_VERIFIER
    } else {
        orders::RA_PROVER
    };
    handled(
        transition.moved(),
        Actions {
            message,
            payload_slice: orders::OF_EVENT,
            payload_len: transition.input.payload_len,
            ..NO_ACTIONS
        },
    )
}

// SC_RA_PROVER and SC_RA_VERIFIER: the peer's message goes to the driver of the other kind.
pub fn pass_on(to_verifier: bool, transition: Transition) -> Outcome
    ensures { result ≡ by_event (cond to_verifier 15 16) transition }
{
    let (prover, verifier) = if to_verifier {
        (orders::NONE, orders::FORWARD)
    } else {
        (orders::FORWARD, orders::NONE)
    };
    handled(
        transition.moved(),
        Actions {
            prover,
            verifier,
            payload_slice: orders::OF_EVENT,
            payload_len: transition.input.payload_len,
            ..NO_ACTIONS
        },
    )
}
