// What sends, delivers, acknowledges and repeats a block: the handled events of document 01's block note. What a function
// doesn't set stays as it is.
#![tactic(auto)]

ghost use Rattle.std.specs.Prelude.{◌≡◌};
ghost use Rattle.protocol.specs.Advance.{flipped};
ghost use Rattle.effects.specs.ByEvent.{by_event};

use effects::{NO_ACTIONS, Transition, handled, order_if_on};
use protocol::{Actions, Outcome, orders};
use record::Connection;

// The other bit.
fn flip(bit: u32) -> u32
    ensures { result ≡ flipped bit }
{
    u32::from(bit == 0)
}

// UPPER_SEND_DATA: the block is cached and sent.
pub fn send_data(transition: Transition) -> Outcome
    ensures { result ≡ by_event 2 transition }
{
    let input = transition.input;
    handled(
        Connection {
            awaiting_ack: 1,
            cached_len: input.payload_len,
            ack: transition.number,
            ..transition.moved()
        },
        Actions {
            message: orders::DATA,
            ack: orders::START,
            bit: transition.before.next_send_bit,
            payload_slice: orders::OF_CACHE,
            payload_len: input.payload_len,
            ..NO_ACTIONS
        },
    )
}

// SC_DATA with the expected bit: the block is acknowledged and goes up.
pub fn receive_data(transition: Transition) -> Outcome
    ensures { result ≡ by_event 18 transition }
{
    let input = transition.input;
    handled(
        Connection {
            expected_bit: flip(transition.before.expected_bit),
            ..transition.moved()
        },
        Actions {
            message: orders::ACK,
            bit: input.bit,
            deliver: true,
            payload_slice: orders::OF_EVENT,
            payload_len: input.payload_len,
            ..NO_ACTIONS
        },
    )
}

// SC_ACK of the waiting block.
pub fn receive_ack(transition: Transition) -> Outcome
    ensures { result ≡ by_event 19 transition }
{
    let before = transition.before;
    handled(
        Connection {
            awaiting_ack: 0,
            next_send_bit: flip(before.next_send_bit),
            cached_len: 0,
            ack: 0,
            ..transition.moved()
        },
        Actions {
            ack: order_if_on(orders::CANCEL, before.ack),
            ..NO_ACTIONS
        },
    )
}

// ACK_TIMEOUT: the cached block is sent again.
pub fn repeat_data(transition: Transition) -> Outcome
    ensures { result ≡ by_event 23 transition }
{
    let before = transition.before;
    handled(
        Connection {
            ack: transition.number,
            ..transition.moved()
        },
        Actions {
            message: orders::DATA,
            ack: orders::START,
            bit: before.next_send_bit,
            payload_slice: orders::OF_CACHE,
            payload_len: before.cached_len,
            ..NO_ACTIONS
        },
    )
}
