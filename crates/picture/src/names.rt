// States and events by document 01's names, each after its number, as document 01 lists them.
use std::fmt;
use table::{codes, states};

#[derive(Clone, Copy)]
pub(crate) struct State(pub(crate) u32);

#[derive(Clone, Copy)]
pub(crate) struct Event(pub(crate) u32);

impl fmt::Display for State {
    fn fmt<W: fmt::Write>(&self, f: &mut fmt::Formatter<W>) -> fmt::Result {
        write!(f, "{} {}", self.0, state_name(self.0))
    }
}

impl fmt::Display for Event {
    fn fmt<W: fmt::Write>(&self, f: &mut fmt::Formatter<W>) -> fmt::Result {
        write!(f, "{} {}", self.0, event_name(self.0))
    }
}

fn state_name(state: u32) -> &'static str {
    match state {
        states::CLOSED_UNLOCKED => "CLOSED_UNLOCKED",
        states::WAIT_FOR_HELLO => "WAIT_FOR_HELLO",
        states::WAIT_FOR_RA => "WAIT_FOR_RA",
        states::WAIT_FOR_RA_PROVER => "WAIT_FOR_RA_PROVER",
        states::WAIT_FOR_RA_VERIFIER => "WAIT_FOR_RA_VERIFIER",
        states::WAIT_FOR_DAT_AND_RA => "WAIT_FOR_DAT_AND_RA",
        states::WAIT_FOR_DAT_AND_RA_VERIFIER => "WAIT_FOR_DAT_AND_RA_VERIFIER",
        states::ESTABLISHED => "ESTABLISHED",
        states::WAIT_FOR_ACK => "WAIT_FOR_ACK",
        states::CLOSED_LOCKED => "CLOSED_LOCKED",
        _ => "unknown",
    }
}

fn event_name(code: u32) -> &'static str {
    match code {
        codes::UPPER_START_HANDSHAKE => "UPPER_START_HANDSHAKE",
        codes::UPPER_CLOSE => "UPPER_CLOSE",
        codes::UPPER_SEND_DATA => "UPPER_SEND_DATA",
        codes::UPPER_RE_RA => "UPPER_RE_RA",
        codes::RA_VERIFIER_OK => "RA_VERIFIER_OK",
        codes::RA_VERIFIER_FAILED => "RA_VERIFIER_FAILED",
        codes::RA_VERIFIER_MSG => "RA_VERIFIER_MSG",
        codes::RA_PROVER_OK => "RA_PROVER_OK",
        codes::RA_PROVER_FAILED => "RA_PROVER_FAILED",
        codes::RA_PROVER_MSG => "RA_PROVER_MSG",
        codes::SC_ERROR => "SC_ERROR",
        codes::SC_HELLO => "SC_HELLO",
        codes::SC_CLOSE => "SC_CLOSE",
        codes::SC_DAT => "SC_DAT",
        codes::SC_DAT_EXPIRED => "SC_DAT_EXPIRED",
        codes::SC_RA_PROVER => "SC_RA_PROVER",
        codes::SC_RA_VERIFIER => "SC_RA_VERIFIER",
        codes::SC_RE_RA => "SC_RE_RA",
        codes::SC_DATA => "SC_DATA",
        codes::SC_ACK => "SC_ACK",
        codes::HANDSHAKE_TIMEOUT => "HANDSHAKE_TIMEOUT",
        codes::DAT_TIMEOUT => "DAT_TIMEOUT",
        codes::RA_TIMEOUT => "RA_TIMEOUT",
        codes::ACK_TIMEOUT => "ACK_TIMEOUT",
        _ => "unknown",
    }
}
