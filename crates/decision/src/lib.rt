// What becomes of an event: refused, ignored or handled.
#![tactic(auto)]

ghost use Rattle.std.specs.Prelude.{◌≡◌, Some, cond};
ghost use Rattle.std.specs.Int.NonZero.{non_zero_u32_get};
ghost use Rattle.std.specs.Option.{option_map};
ghost use Rattle.decision.specs.Also.{decided_also};
ghost use Rattle.decision.specs.Lent.{lent, unmoved_answer};
ghost use Rattle.record.specs.Numbers.{record_in};
ghost use Rattle.protocol.specs.Sheet.{slots_of};
ghost use Rattle.flat.specs.Written.{Written};
ghost use Rattle.protocol.specs.Actions.{no_actions};

use dispatch::move_on;
use effects::{NO_ACTIONS, Transition};
use event::Input;
use flat::put;
use guards::{holds, lowest_fault};
use lifecycle::lock;
use protocol::{Answer, refusals};
use record::Connection;
use std::num::NonZeroU32;
use table::{next_state, states};

// Decides an event for a record and writes the actions and, where the event is handled, the record after it. `also` is a refusal
// of the host's interface.
pub fn decide(
    numbers: &mut [u32; 12],
    slots: &mut [u32; 16],
    also: Option<NonZeroU32>,
    connection: Connection,
    code: u32,
    input: Input,
) -> Answer
    ensures { Written (lent (record_in numbers.old) (decided_also (option_map non_zero_u32_get also) connection code input)) result numbers.new slots.new }
{
    if let Some(fault) = lowest_fault(connection, code, input) {
        return unmoved(slots, Some(fault));
    }
    let late = late_refusal(input.margin_too_large, also);
    let held = holds(connection, code, input);
    let Some(to) = next_state(connection.state, connection.awaiting_ack, code, held) else {
        return unmoved(slots, late);
    };
    let handled = connection.handled;
    let Some(number) = handled.checked_add(1) else {
        return unmoved(slots, Some(refusals::NUMBER_EXHAUSTED));
    };
    if let Some(refusal) = late {
        return unmoved(slots, Some(refusal));
    }
    let transition = Transition {
        before: connection,
        input,
        to,
        number,
    };
    if to == states::CLOSED_LOCKED {
        return put(numbers, slots, lock(code, transition));
    }
    move_on(numbers, slots, code, transition)
}

// Refusal 9 or, without its fault, that of the host's interface.
fn late_refusal(margin_too_large: bool, also: Option<NonZeroU32>) -> Option<u32>
    ensures { result ≡ cond margin_too_large (Some 9) (option_map non_zero_u32_get also) }
{
    if margin_too_large {
        return Some(refusals::MARGIN_TOO_LARGE);
    }
    also.map(NonZeroU32::get)
}

// Refused or, without a refusal, ignored: no actions, and the record is not written.
fn unmoved(slots: &mut [u32; 16], refusal: Option<u32>) -> Answer
    ensures value { result ≡ unmoved_answer refusal }
    ensures slots_after { slots.new ≡ slots_of no_actions }
{
    *slots = NO_ACTIONS.into();
    match refusal {
        Some(number) => Answer::Refused(number),
        None => Answer::Ignored,
    }
}
