// Handled events that lock the connection.
ghost use Rattle.std.specs.Prelude.{◌≡◌, not, ◌&&◌, cond, eqb};
ghost use Rattle.effects.specs.ByEvent.{by_locking};

use effects::{NO_ACTIONS, Transition, handled, order_if_on};
use event::timers;
use protocol::{Actions, Outcome, orders};
use record::cleared;
use table::{codes, states};

// The order that ends a driver or a timer that runs, unless it is the one that reports.
fn ending_order(order: u32, reported: bool, tag: u32) -> u32
    ensures { result ≡ cond (not reported && not (eqb tag 0)) order 0 }
{
    if reported {
        orders::NONE
    } else {
        order_if_on(order, tag)
    }
}

// Stops every driver and cancels every timer that runs, but for the one that reports. It sends CLOSE, but no message at an
// error or at the peer's own close.
pub fn lock(code: u32, transition: Transition) -> Outcome
    ensures { result ≡ by_locking code transition }
{
    let before = transition.before;
    let timer = transition.input.timer;
    let silent = (code == codes::SC_ERROR) | (code == codes::SC_CLOSE);
    let proved = (code == codes::RA_PROVER_OK) | (code == codes::RA_PROVER_FAILED);
    let verified = (code == codes::RA_VERIFIER_OK) | (code == codes::RA_VERIFIER_FAILED);
    let timeout = code == codes::HANDSHAKE_TIMEOUT;
    let h_expired = timeout & (timer == timers::H);
    let hp_expired = timeout & (timer == timers::HP);
    let hv_expired = timeout & (timer == timers::HV);
    handled(
        cleared(states::CLOSED_LOCKED, transition.number),
        Actions {
            message: if silent { orders::NONE } else { orders::CLOSE },
            prover: ending_order(orders::STOP, proved, before.prover),
            verifier: ending_order(orders::STOP, verified, before.verifier),
            h: ending_order(orders::CANCEL, h_expired, before.h),
            hp: ending_order(orders::CANCEL, hp_expired, before.prover),
            hv: ending_order(orders::CANCEL, hv_expired, before.verifier),
            dat: ending_order(orders::CANCEL, code == codes::DAT_TIMEOUT, before.dat),
            ra: ending_order(orders::CANCEL, code == codes::RA_TIMEOUT, before.ra),
            ack: ending_order(orders::CANCEL, code == codes::ACK_TIMEOUT, before.ack),
            ..NO_ACTIONS
        },
    )
}
