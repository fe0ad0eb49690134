// The event that a message of the peer is.
#![tactic(auto)]

ghost use Rattle.std.specs.Prelude.{◌≡◌};
ghost use Rattle.std.specs.Int.NonZero.{non_zero_u32_get};
ghost use Rattle.std.specs.Option.{option_map};
ghost use Rattle.arrival.specs.Arrival.{also_of, code_of, event_of};

use event::Event;
use fields::schema;
use std::num::NonZeroU32;
use table::codes;
use token::Token;

// A code that no event has: a step with it is refused. The C interface gives every number an event, so it has a code for each.
const NO_EVENT: u32 = 24;

// The code of the event that a message is, by the message's number. It takes and gives numbers, as the C interface does.
pub fn code_of(number: u32) -> u32
    ensures { result ≡ code_of number }
{
    match number {
        schema::HELLO => codes::SC_HELLO,
        schema::CLOSE => codes::SC_CLOSE,
        schema::DAT_EXPIRED => codes::SC_DAT_EXPIRED,
        schema::DAT => codes::SC_DAT,
        schema::RE_RA => codes::SC_RE_RA,
        schema::RA_PROVER => codes::SC_RA_PROVER,
        schema::RA_VERIFIER => codes::SC_RA_VERIFIER,
        schema::DATA => codes::SC_DATA,
        schema::ACK => codes::SC_ACK,
        _ => NO_EVENT,
    }
}

// The event that a message is: its bit, and what the host says of the token.
pub fn event_of(number: u32, bit: u32, token: Token) -> Event
    ensures { result ≡ event_of number bit token }
{
    Event {
        code: code_of(number),
        tag: 0,
        timer: 0,
        bit,
        token,
    }
}

// A refusal of the host's interface concerns the messages that carry a token.
pub fn also_of(number: u32, token_refusal: Option<NonZeroU32>) -> Option<NonZeroU32>
    ensures { option_map non_zero_u32_get result ≡ also_of number (option_map non_zero_u32_get token_refusal) }
{
    match number {
        schema::HELLO | schema::DAT => token_refusal,
        _ => None,
    }
}
