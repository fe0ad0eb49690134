// What asks for a fresh attestation or a fresh token, and what brings it: the handled events 3, 13, 14, 17, 21 and 22. What a function
// doesn't set stays as it is.
#![tactic(auto)]

ghost use Rattle.std.specs.Prelude.{◌≡◌, cond};
ghost use Rattle.effects.specs.ByEvent.{by_event};

use effects::{NO_ACTIONS, Transition, handled, order_if_on};
use protocol::{Actions, Outcome, orders};
use record::Connection;

// SC_DAT_EXPIRED and SC_RE_RA: we prove ourselves again; SC_DAT_EXPIRED also gets a fresh token.
pub fn prove_again(expired: bool, transition: Transition) -> Outcome
    ensures { result ≡ by_event (cond expired 14 17) transition }
{
    handled(
        Connection {
            prover: transition.number,
            ack: 0,
            ..transition.moved()
        },
        Actions {
            message: if expired { orders::DAT } else { orders::NONE },
            prover: orders::START,
            hp: orders::START,
            ack: order_if_on(orders::CANCEL, transition.before.ack),
            ..NO_ACTIONS
        },
    )
}

// UPPER_RE_RA and RA_TIMEOUT: the peer has to prove itself again.
pub fn verify_again(asked: bool, transition: Transition) -> Outcome
    ensures { result ≡ by_event (cond asked 3 22) transition }
{
    handled(
        Connection {
            verifier: transition.number,
            ra: 0,
            ack: 0,
            ..transition.moved()
        },
        Actions {
            message: orders::RE_RA,
            verifier: orders::START,
            hv: orders::START,
            ra: if asked { orders::CANCEL } else { orders::NONE },
            ack: order_if_on(orders::CANCEL, transition.before.ack),
            ..NO_ACTIONS
        },
    )
}

// DAT_TIMEOUT: the peer has to send a fresh token, and is then verified anew.
pub fn expire_token(transition: Transition) -> Outcome
    ensures { result ≡ by_event 21 transition }
{
    let before = transition.before;
    handled(
        Connection {
            h: transition.number,
            verifier: 0,
            dat: 0,
            ra: 0,
            ack: 0,
            ..transition.moved()
        },
        Actions {
            message: orders::DAT_EXPIRED,
            verifier: order_if_on(orders::STOP, before.verifier),
            h: orders::START,
            hv: order_if_on(orders::CANCEL, before.verifier),
            ra: order_if_on(orders::CANCEL, before.ra),
            ack: order_if_on(orders::CANCEL, before.ack),
            ..NO_ACTIONS
        },
    )
}

// A good SC_DAT: the token is current again, and the peer has to prove itself.
pub fn renew_token(transition: Transition) -> Outcome
    ensures { result ≡ by_event 13 transition }
{
    handled(
        Connection {
            h: 0,
            verifier: transition.number,
            dat: transition.number,
            ..transition.moved()
        },
        Actions {
            verifier: orders::START,
            h: orders::CANCEL,
            hv: orders::START,
            dat: orders::START,
            dat_seconds: transition.input.seconds,
            ..NO_ACTIONS
        },
    )
}
