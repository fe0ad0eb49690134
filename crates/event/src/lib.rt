// What the step reads of a call's arguments: an event is opened by its kind, which its code fixes,
// and a field is read only from the kind that carries it.
#![tactic(auto)]

ghost use Rattle.std.specs.Prelude.{◌≡◌, ◌&&◌, eqb, ltb, is_some, unwrap_or};
ghost use Rattle.record.specs.Limits.{limits};
ghost use Rattle.event.specs.Kind.{kind_of, fields_of};
ghost use Rattle.event.specs.Call.{chosen_suites, suites_of, carries_payload, short_length, input_by};
ghost use Rattle.suites.specs.Numbers.{answer_of};

use suites::{Chosen, Lists, TooLong};
use table::codes::{
    ACK_TIMEOUT, DAT_TIMEOUT, HANDSHAKE_TIMEOUT, RA_PROVER_MSG, RA_VERIFIER_MSG, RA_VERIFIER_OK,
    SC_ACK, SC_DAT, SC_DATA, SC_HELLO, SC_RA_PROVER, SC_RA_VERIFIER, UPPER_SEND_DATA,
};
use token::{Token, margin_too_large};

pub mod timers;

// The most bytes of a payload, and the fewest of a cache.
const MAX_PAYLOAD: usize = 4096;

// An event as the host hands it over. Only the fields that its code carries are read. Code, timer and bit are numbers, since
// the step answers an unknown one with a refusal.
#[derive(Clone, Copy, Debug, PartialEq, Eq)]
pub struct Event {
    pub code: u32,
    pub tag: u32,
    // Of a handshake timeout; the names are in `timers`.
    pub timer: u32,
    pub bit: u32,
    pub token: Token,
}

// What events carry besides their payload and their suite lists.
#[derive(Clone, Copy, Debug, PartialEq, Eq)]
pub enum EventKind {
    Plain,
    Tagged(u32),
    HandshakeTimeout { tag: u32, timer: u32 },
    Bit(u32),
    Token(Token),
}

// The suites of a hello, whether both are found, and whether a list is too long. They are numbers and flags and no Option, since the
// functions of the step that are given an `Input` promise an answer for each combination of them.
#[derive(Clone, Copy, Debug, PartialEq, Eq)]
pub struct Suites {
    pub too_long: bool,
    pub found: bool,
    pub verifier: u32,
    pub prover: u32,
}

const NO_SUITES: Suites = Suites {
    too_long: false,
    found: false,
    verifier: 0,
    prover: 0,
};

// What the step reads of a call, besides the code.
#[derive(Clone, Copy, Debug, PartialEq, Eq)]
pub struct Input {
    pub tag: u32,
    pub timer: u32,
    pub bit: u32,
    // Whether the token is good, and its seconds then: a flag and a number, for the reason that `Suites` gives.
    pub good: bool,
    pub seconds: u32,
    // This fault and the payload's are tests of their own, as the papers list them: with a Result in its place each reader of the value
    // would first take apart what is refused before it is read.
    pub margin_too_large: bool,
    pub payload_len: u32,
    pub payload_too_long: bool,
    pub cache_too_short: bool,
    pub suites: Suites,
}

impl Event {
    // The kind that its code fixes.
    #[tactic(auto, unfolding(crate::specs::Kind::kind_of))]
    fn kind(self) -> EventKind
        ensures { result ≡ kind_of self }
    {
        match self.code {
            RA_VERIFIER_OK..=RA_PROVER_MSG => EventKind::Tagged(self.tag),
            SC_HELLO | SC_DAT => EventKind::Token(self.token),
            SC_DATA | SC_ACK => EventKind::Bit(self.bit),
            HANDSHAKE_TIMEOUT => EventKind::HandshakeTimeout {
                tag: self.tag,
                timer: self.timer,
            },
            DAT_TIMEOUT..=ACK_TIMEOUT => EventKind::Tagged(self.tag),
            _ => EventKind::Plain,
        }
    }
}

// A field that a kind does not carry counts as 0, by `fields_of`.
impl EventKind {
    // The tag of a driver's report or a timeout.
    fn tag(self) -> u32
        ensures { result ≡ (fields_of self).tag }
    {
        let (EventKind::Tagged(tag) | EventKind::HandshakeTimeout { tag, timer: _ }) = self else {
            return 0;
        };
        tag
    }

    // The handshake timer that a timeout names.
    fn timer(self) -> u32
        ensures { result ≡ (fields_of self).timer }
    {
        let EventKind::HandshakeTimeout { tag: _, timer } = self else {
            return 0;
        };
        timer
    }

    // The bit of a DATA or ACK.
    fn bit(self) -> u32
        ensures { result ≡ (fields_of self).bit }
    {
        let EventKind::Bit(bit) = self else {
            return 0;
        };
        bit
    }

    // The seconds left of a good token.
    fn seconds(self) -> Option<u32>
        ensures good { is_some result ≡ (fields_of self).is_good }
        ensures seconds { unwrap_or result 0 ≡ (fields_of self).seconds }
    {
        let EventKind::Token(token) = self else {
            return None;
        };
        token.good_seconds()
    }

    // Whether a token's margin is too large.
    fn margin_too_large(self) -> bool
        ensures { result ≡ (fields_of self).large_margin }
    {
        let EventKind::Token(token) = self else {
            return false;
        };
        margin_too_large(token.margin)
    }
}

// The suites of a hello; of another event the lists are not read.
#[tactic(auto, using(crate::proofs::Opening::refused_if_too_long))]
pub fn choose_suites(code: u32, lists: Lists<'_>) -> Suites
    ensures { result ≡ suites_of code lists.entry.our_verifiers.now lists.entry.peer_provers.now lists.entry.peer_verifiers.now lists.entry.our_provers.now }
{
    if code != SC_HELLO {
        return NO_SUITES;
    }
    suites_in(lists.choose())
}

// The suites of a choice.
fn suites_in(choice: Result<Chosen, TooLong>) -> Suites
    ensures { result ≡ chosen_suites (eqb (answer_of choice).refusal 6) (answer_of choice) }
{
    let Ok(Chosen { verifier, prover }) = choice else {
        return Suites {
            too_long: true,
            ..NO_SUITES
        };
    };
    Suites {
        too_long: false,
        found: verifier.is_some() & prover.is_some(),
        verifier: verifier.unwrap_or(0),
        prover: prover.unwrap_or(0),
    }
}

fn carries_payload(code: u32) -> bool
    ensures { result ≡ carries_payload code }
{
    matches!(
        code,
        UPPER_SEND_DATA | RA_VERIFIER_MSG | RA_PROVER_MSG | SC_RA_PROVER | SC_RA_VERIFIER | SC_DATA
    )
}

// A payload's length; one that is too long counts as 0, by `short_length`.
fn short_len(len: usize) -> u32
    ensures { result ≡ short_length limits len }
{
    if len > MAX_PAYLOAD { 0 } else { len as u32 }
}

// Whether an event carries a payload that is too long.
fn payload_too_long(code: u32, len: usize) -> bool
    ensures { result ≡ (carries_payload code && ltb limits.payload len) }
{
    if len <= MAX_PAYLOAD {
        return false;
    }
    carries_payload(code)
}

// What the step reads of a call.
#[tactic(auto, unfolding(crate::specs::Call::input_by))]
pub fn read(event: Event, payload_len: usize, cache_len: usize, suites: Suites) -> Input
    ensures { result ≡ input_by limits event payload_len cache_len suites }
{
    let kind = event.kind();
    let seconds = kind.seconds();
    Input {
        tag: kind.tag(),
        timer: kind.timer(),
        bit: kind.bit(),
        good: seconds.is_some(),
        seconds: seconds.unwrap_or(0),
        margin_too_large: kind.margin_too_large(),
        payload_len: short_len(payload_len),
        payload_too_long: payload_too_long(event.code, payload_len),
        cache_too_short: cache_len < MAX_PAYLOAD,
        suites,
    }
}
