// Gives a handled event that doesn't lock to its function, by its code.
#![tactic(auto)]

ghost use Rattle.effects.specs.ByEvent.{by_event, moving_code};
ghost use Rattle.flat.specs.Written.{Written};

use attestation::{pass_on, prover_ok, send_report, verifier_ok};
use effects::Transition;
use flat::put;
use lifecycle::{open_connection, start_handshake};
use protocol::Answer;
use renewal::{expire_token, prove_again, renew_token, verify_again};
use table::codes::{
    DAT_TIMEOUT, RA_PROVER_MSG, RA_PROVER_OK, RA_TIMEOUT, RA_VERIFIER_MSG, RA_VERIFIER_OK, SC_ACK,
    SC_DAT, SC_DAT_EXPIRED, SC_DATA, SC_HELLO, SC_RA_PROVER, SC_RA_VERIFIER, SC_RE_RA, UPPER_RE_RA,
    UPPER_SEND_DATA, UPPER_START_HANDSHAKE,
};
use transfer::{receive_ack, receive_data, repeat_data, send_data};

// Writes the record and the actions after the event. Each event does so in its own arm, since an outcome that the arms hand on is
// copied: one call of `put` for all was tried, and took a fifth more instructions. A code that never moves on counts as ACK_TIMEOUT.
pub fn move_on(
    numbers: &mut [u32; 12],
    slots: &mut [u32; 16],
    code: u32,
    transition: Transition,
) -> Answer
    ensures { Written (by_event (moving_code code) transition) result numbers.new slots.new }
{
    match code {
        UPPER_START_HANDSHAKE => put(numbers, slots, start_handshake(transition)),
        UPPER_SEND_DATA => put(numbers, slots, send_data(transition)),
        UPPER_RE_RA => put(numbers, slots, verify_again(true, transition)),
        RA_VERIFIER_OK => put(numbers, slots, verifier_ok(transition)),
        RA_VERIFIER_MSG => put(numbers, slots, send_report(true, transition)),
        RA_PROVER_OK => put(numbers, slots, prover_ok(transition)),
        RA_PROVER_MSG => put(numbers, slots, send_report(false, transition)),
        SC_HELLO => put(numbers, slots, open_connection(transition)),
        SC_DAT => put(numbers, slots, renew_token(transition)),
        SC_DAT_EXPIRED => put(numbers, slots, prove_again(true, transition)),
        SC_RA_PROVER => put(numbers, slots, pass_on(true, transition)),
        SC_RA_VERIFIER => put(numbers, slots, pass_on(false, transition)),
        SC_RE_RA => put(numbers, slots, prove_again(false, transition)),
        SC_DATA => put(numbers, slots, receive_data(transition)),
        SC_ACK => put(numbers, slots, receive_ack(transition)),
        DAT_TIMEOUT => put(numbers, slots, expire_token(transition)),
        RA_TIMEOUT => put(numbers, slots, verify_again(false, transition)),
        // ACK_TIMEOUT, or a code that never moves on.
        _ => put(numbers, slots, repeat_data(transition)),
    }
}
