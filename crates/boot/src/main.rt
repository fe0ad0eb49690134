// The boot run of document 01: after each call a line with the state and the number of handled events.
#![tactic(auto)]

use connection::{Event, Lists, Token, codes, fresh, step};
use std::io;
use std::io::Write;

const NOW: i64 = 1_000;

const EXPIRY: i64 = 1_060;

// The calls by code, tag and payload, which only a block that is sent has.
const CALLS: [(u32, u32, &[u8]); 10] = [
    (codes::UPPER_START_HANDSHAKE, 0, &[]),
    (codes::SC_HELLO, 0, &[]),
    (codes::RA_PROVER_OK, 2, &[]),
    (codes::RA_VERIFIER_OK, 1, &[]),
    (codes::RA_VERIFIER_OK, 2, &[]),
    (codes::UPPER_SEND_DATA, 0, &[1, 2, 3, 4, 5]),
    (codes::SC_RE_RA, 0, &[]),
    (codes::RA_PROVER_OK, 2, &[]),
    (codes::SC_ACK, 0, &[]),
    (codes::RA_PROVER_OK, 6, &[]),
];

const LISTS: Lists<'static> = Lists {
    our_verifiers: &[7, 3],
    peer_provers: &[3, 7],
    peer_verifiers: &[3],
    our_provers: &[3, 7],
};

fn main(rt: HostRuntime) -> io::Result<()> {
    run(&mut rt.stdout())
}

fn run<W: Write>(out: &mut W) -> io::Result<()> {
    let mut connection = fresh();
    // Document 01 gives the boot program a cache of 4,096 zero bytes.
    let mut cache = [0u8; 4096];
    for (code, tag, payload) in CALLS {
        let outcome = step(connection, event(code, tag), payload, LISTS, &mut cache);
        connection = outcome.connection;
        writeln!(out, "{} {}", connection.state, connection.handled)?;
    }
    Ok(())
}

// The run's events have bit 0, and its token a verdict of yes and margin 0.
fn event(code: u32, tag: u32) -> Event {
    Event {
        code,
        tag,
        timer: 0,
        bit: 0,
        token: Token {
            verdict: true,
            margin: 0,
            expiry: EXPIRY,
            now: NOW,
        },
    }
}
