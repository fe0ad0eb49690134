// The connection step, the reader of messages, the token's time and the suite choice for hosts in C and Rust.
//
// Record, actions and choice are lent as numbers in a fixed order; the header `menhotrac.h` names them. The host owns
// all memory, and the library keeps none of it.
#![tactic(auto)]

ghost use Rattle.std.specs.Prelude.{◌≡◌, ◌+◌, ◌≤◌, length};
ghost use Rattle.capi.specs.Part.{Within, part_in};
ghost use Rattle.capi.specs.Returned.{returned};
ghost use Rattle.arrival.specs.Arrival.{code_of};
ghost use Rattle.record.specs.Numbers.{numbers_of, record_in};
ghost use Rattle.interface.specs.Choice.{chosen_of};
ghost use Rattle.interface.specs.Event.{flat_event_with};
ghost use Rattle.record.specs.WellFormed as spec;
ghost use Rattle.suites.specs.Choice.{choice};
ghost use Rattle.token.specs.Answer.{time_left};
ghost use Rattle.messages.specs.Flat.{flat_in, reading_by};
ghost use Rattle.messages.specs.Outer.{reading_of};
ghost use Rattle.fields.specs.Contents.{provers_after, verifiers_after};

use arrival::code_of;
use connection::{Lists, fresh, step_flat};
use interface::{FlatEvent, FlatToken, answer, choice, event_in, refused_as, time};
use messages::{FlatMessage, read_flat};
use token::seconds_left;

// The record of a new connection.
pub fn menhotrac_fresh(connection: &mut [u32; 12])
    ensures { connection.new ≡ numbers_of spec.fresh }
{
    *connection = fresh().into();
}

// Seconds left at a time, asked alone: the refusal, and the seconds.
pub fn menhotrac_seconds_left(expiry: i64, at: i64, margin: u32, seconds: &mut i64) -> u32
    ensures value { result ≡ (time_left expiry at margin).refusal }
    ensures seconds_after { seconds.new ≡ (time_left expiry at margin).seconds }
{
    let left = seconds_left(expiry, at, margin);
    *seconds = time::seconds_in(left);
    time::refusal_in(left)
}

// The suite choice, asked alone: the refusal, and both suites with whether they were found.
pub fn menhotrac_choose_suites(
    our_verifiers: &[u32],
    peer_provers: &[u32],
    peer_verifiers: &[u32],
    our_provers: &[u32],
    chosen: &mut [u32; 4],
) -> u32
    ensures value { result ≡ (choice our_verifiers.now peer_provers.now peer_verifiers.now our_provers.now).refusal }
    ensures chosen_after { chosen.new ≡ chosen_of (choice our_verifiers.now peer_provers.now peer_verifiers.now our_provers.now) }
{
    let lists = Lists {
        our_verifiers,
        peer_provers,
        peer_verifiers,
        our_provers,
    };
    let made = lists.choose();
    *chosen = choice::numbers_in(made);
    choice::refusal_in(made)
}

// One step. It changes the record and writes the actions; a handled `UPPER_SEND_DATA` writes the cache. The payload part
// is the one that the slots name, and lies within its slice.
pub fn menhotrac_step(
    connection: &mut [u32; 12],
    event: FlatEvent,
    payload: &[u8],
    cache: &mut [u8],
    actions: &mut [u32; 16],
    our_verifiers: &[u32],
    peer_provers: &[u32],
    peer_verifiers: &[u32],
    our_provers: &[u32],
) -> u32
    ensures value { result ≡ (returned connection.old event payload.now cache.old our_verifiers.now peer_provers.now peer_verifiers.now our_provers.now).answer }
    ensures connection_after { record_in connection.new ≡ (returned connection.old event payload.now cache.old our_verifiers.now peer_provers.now peer_verifiers.now our_provers.now).connection }
    ensures actions_after { actions.new ≡ (returned connection.old event payload.now cache.old our_verifiers.now peer_provers.now peer_verifiers.now our_provers.now).actions }
    ensures cache_after { cache.new ≡ (returned connection.old event payload.now cache.old our_verifiers.now peer_provers.now peer_verifiers.now our_provers.now).cache }
    ensures within { Within actions.new payload.now cache.new }
    ensures part_value { part_in actions.new payload.now cache.new ≡ (returned connection.old event payload.now cache.old our_verifiers.now peer_provers.now peer_verifiers.now our_provers.now).part }
{
    let answer = step_flat(
        connection,
        refused_as(event),
        event.into(),
        payload,
        Lists {
            our_verifiers,
            peer_provers,
            peer_verifiers,
            our_provers,
        },
        cache,
        actions,
    );
    answer::number_of(answer)
}

// Reads one message. A hello's suites are written to the two lists, followed by zeros; for any other message, and for bytes
// that are refused, both keep their entries.
pub fn menhotrac_read(
    bytes: &[u8],
    provers: &mut [u32; 16],
    verifiers: &mut [u32; 16],
) -> FlatMessage
    ensures value { result ≡ flat_in (reading_of bytes.now) }
    ensures provers_left { provers.new ≡ provers_after (reading_of bytes.now) provers.old }
    ensures verifiers_left { verifiers.new ≡ verifiers_after (reading_of bytes.now) verifiers.old }
    ensures says { reading_by result provers.new verifiers.new ≡ reading_of bytes.now }
    ensures counts { (result.provers ≤ 16) × (result.verifiers ≤ 16) }
    ensures lies { result.place + result.size ≤ length bytes.now }
{
    read_flat(bytes, provers, verifiers)
}

// The event that a message is, by its number and bit, with what the host says of the token.
pub fn menhotrac_event_of(number: u32, bit: u32, token: FlatToken) -> FlatEvent
    ensures { result ≡ flat_event_with (code_of number) bit token }
{
    event_in(code_of(number), bit, token)
}
