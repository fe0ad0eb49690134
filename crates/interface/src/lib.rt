// What hosts in C hand over and get, as numbers: events with a verdict that is a number, answers, seconds left and the
// suite choice.
#![tactic(auto)]

ghost use Rattle.std.specs.Prelude.{◌≡◌};
ghost use Rattle.std.specs.Int.NonZero.{non_zero_u32_get};
ghost use Rattle.std.specs.Option.{option_map};
ghost use Rattle.interface.specs.Event.{event_of, flat_event_with};
ghost use Rattle.interface.specs.Verdict.{refused_as, wrong_verdict};

pub mod answer;
pub mod choice;
pub mod time;

use event::Event;
use std::num::NonZeroU32;
use table::codes;
use token::Token;

const YES: u32 = 1;

// A verdict that is neither 0 nor 1.
const WRONG_VERDICT: u32 = 41;

// An event as a host in C hands it over: `Event` with the verdict as a number.
#[repr(C)]
#[derive(Clone, Copy, Debug, PartialEq, Eq)]
pub struct FlatEvent {
    pub code: u32,
    pub tag: u32,
    pub timer: u32,
    pub bit: u32,
    pub verdict: u32,
    pub margin: u32,
    pub expiry: i64,
    pub now: i64,
}

// What a host says of a token, with its verdict as a number.
#[repr(C)]
#[derive(Clone, Copy, Debug, PartialEq, Eq)]
pub struct FlatToken {
    pub verdict: u32,
    pub margin: u32,
    pub expiry: i64,
    pub now: i64,
}

// The event of document 01.
impl From<FlatEvent> for Event {
    ghost from_gives = { λ flat event. event ≡ event_of flat };

    fn from(flat: FlatEvent) -> Event {
        Event {
            code: flat.code,
            tag: flat.tag,
            timer: flat.timer,
            bit: flat.bit,
            token: Token {
                verdict: flat.verdict == YES,
                margin: flat.margin,
                expiry: flat.expiry,
                now: flat.now,
            },
        }
    }
}

fn wrong_verdict(flat: FlatEvent) -> bool
    ensures { result ≡ wrong_verdict flat }
{
    ((flat.code == codes::SC_HELLO) | (flat.code == codes::SC_DAT)) & (flat.verdict > YES)
}

// The interface's own refusal of an event.
pub fn refused_as(flat: FlatEvent) -> Option<NonZeroU32>
    ensures { option_map non_zero_u32_get result ≡ refused_as flat }
{
    if wrong_verdict(flat) {
        NonZeroU32::new(WRONG_VERDICT)
    } else {
        None
    }
}

// An event with a bit, and with what the host says of the token. A message carries no tag and names no timer. A host in C needs it as
// numbers; `arrival::event_of` makes it as an `Event`.
pub fn event_in(code: u32, bit: u32, token: FlatToken) -> FlatEvent
    ensures { result ≡ flat_event_with code bit token }
{
    FlatEvent {
        code,
        tag: 0,
        timer: 0,
        bit,
        verdict: token.verdict,
        margin: token.margin,
        expiry: token.expiry,
        now: token.now,
    }
}
