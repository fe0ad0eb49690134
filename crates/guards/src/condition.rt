// The conditions of the events.
ghost use Rattle.std.specs.Prelude.{◌≡◌};
ghost use Rattle.protocol.specs.Condition as spec;
ghost use Rattle.event.specs.Kind.{named};
ghost use Rattle.record.specs.Tags.{tag_of};

use event::{Input, timers};
use record::Connection;
use table::codes::{
    ACK_TIMEOUT, DAT_TIMEOUT, HANDSHAKE_TIMEOUT, RA_PROVER_MSG, RA_PROVER_OK, RA_TIMEOUT,
    RA_VERIFIER_MSG, RA_VERIFIER_OK, SC_ACK, SC_DAT, SC_DATA, SC_HELLO,
};

// A tag is live if it isn't 0 and equals the record's tag of its driver or timer.
fn live(tag: u32, own: u32) -> bool
    ensures { result ≡ spec.is_live tag own }
{
    (tag != 0) & (tag == own)
}

// The record's tag of a handshake timer.
fn handshake_tag(connection: Connection, timer: u32) -> u32
    ensures { result ≡ tag_of connection (named timer) }
{
    // Read first: chosen among fields, the record would be kept in memory.
    let h = connection.h;
    let prover = connection.prover;
    let verifier = connection.verifier;
    match timer {
        timers::H => h,
        timers::HP => prover,
        _ => verifier,
    }
}

// Whether the condition of an event holds.
#[tactic(auto, unfolding(protocol::specs::Condition::holds))]
pub fn holds(connection: Connection, code: u32, input: Input) -> bool
    ensures { result ≡ spec.holds connection code input }
{
    match code {
        RA_VERIFIER_OK..=RA_VERIFIER_MSG => live(input.tag, connection.verifier),
        RA_PROVER_OK..=RA_PROVER_MSG => live(input.tag, connection.prover),
        SC_HELLO => input.good & input.suites.found,
        SC_DAT => input.good,
        SC_DATA => input.bit == connection.expected_bit,
        SC_ACK => (connection.awaiting_ack == 1) & (input.bit == connection.next_send_bit),
        HANDSHAKE_TIMEOUT => live(input.tag, handshake_tag(connection, input.timer)),
        DAT_TIMEOUT => live(input.tag, connection.dat),
        RA_TIMEOUT => live(input.tag, connection.ra),
        ACK_TIMEOUT => live(input.tag, connection.ack),
        _ => true,
    }
}
