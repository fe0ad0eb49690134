// The functions of `capi` as exports of the archive that hosts in C and Rust link. Each hands its arguments on, and promises what
// `capi` promises: an export stands only in a static library, and no crate can rest on one.
#![tactic(auto)]

ghost use Rattle.std.specs.Prelude.{◌≡◌, ◌+◌, ◌≤◌, length};
ghost use Rattle.capi.specs.Part.{Within, part_in};
ghost use Rattle.capi.specs.Returned.{returned};
ghost use Rattle.arrival.specs.Arrival.{code_of};
ghost use Rattle.record.specs.Numbers.{numbers_of, record_in};
ghost use Rattle.interface.specs.Choice.{chosen_of};
ghost use Rattle.interface.specs.Event.{flat_event_with};
ghost use Rattle.record.specs.WellFormed as spec;
ghost use Rattle.suites.specs.Choice.{choice};
ghost use Rattle.token.specs.Answer.{time_left};
ghost use Rattle.messages.specs.Flat.{flat_in, reading_by};
ghost use Rattle.messages.specs.Outer.{reading_of};
ghost use Rattle.fields.specs.Contents.{provers_after, verifiers_after};

use interface::{FlatEvent, FlatToken};
use messages::FlatMessage;

// The record of a new connection.
#[unsafe(no_mangle)]
pub extern "C" fn menhotrac_fresh(connection: &mut [u32; 12])
    ensures { connection.new ≡ numbers_of spec.fresh }
{
    capi::menhotrac_fresh(connection);
}

// Seconds left at a time, asked alone: the refusal, and the seconds.
#[unsafe(no_mangle)]
pub extern "C" fn menhotrac_seconds_left(
    expiry: i64,
    at: i64,
    margin: u32,
    seconds: &mut i64,
) -> u32
    ensures value { result ≡ (time_left expiry at margin).refusal }
    ensures seconds_after { seconds.new ≡ (time_left expiry at margin).seconds }
{
    capi::menhotrac_seconds_left(expiry, at, margin, seconds)
}

// The suite choice, asked alone: the refusal, and both suites with whether they were found.
#[unsafe(no_mangle)]
pub extern "C" fn menhotrac_choose_suites(
    our_verifiers: &[u32],
    peer_provers: &[u32],
    peer_verifiers: &[u32],
    our_provers: &[u32],
    chosen: &mut [u32; 4],
) -> u32
    ensures value { result ≡ (choice our_verifiers.now peer_provers.now peer_verifiers.now our_provers.now).refusal }
    ensures chosen_after { chosen.new ≡ chosen_of (choice our_verifiers.now peer_provers.now peer_verifiers.now our_provers.now) }
{
    capi::menhotrac_choose_suites(
        our_verifiers,
        peer_provers,
        peer_verifiers,
        our_provers,
        chosen,
    )
}

// One step. It changes the record and writes the actions; a handled `UPPER_SEND_DATA` writes the cache. The payload part
// is the one that the slots name, and lies within its slice.
#[unsafe(no_mangle)]
pub extern "C" fn menhotrac_step(
    connection: &mut [u32; 12],
    event: FlatEvent,
    payload: &[u8],
    cache: &mut [u8],
    actions: &mut [u32; 16],
    our_verifiers: &[u32],
    peer_provers: &[u32],
    peer_verifiers: &[u32],
    our_provers: &[u32],
) -> u32
    ensures value { result ≡ (returned connection.old event payload.now cache.old our_verifiers.now peer_provers.now peer_verifiers.now our_provers.now).answer }
    ensures connection_after { record_in connection.new ≡ (returned connection.old event payload.now cache.old our_verifiers.now peer_provers.now peer_verifiers.now our_provers.now).connection }
    ensures actions_after { actions.new ≡ (returned connection.old event payload.now cache.old our_verifiers.now peer_provers.now peer_verifiers.now our_provers.now).actions }
    ensures cache_after { cache.new ≡ (returned connection.old event payload.now cache.old our_verifiers.now peer_provers.now peer_verifiers.now our_provers.now).cache }
    ensures within { Within actions.new payload.now cache.new }
    ensures part_value { part_in actions.new payload.now cache.new ≡ (returned connection.old event payload.now cache.old our_verifiers.now peer_provers.now peer_verifiers.now our_provers.now).part }
{
    capi::menhotrac_step(
        connection,
        event,
        payload,
        cache,
        actions,
        our_verifiers,
        peer_provers,
        peer_verifiers,
        our_provers,
    )
}

// Reads one message. A hello's suites are written to the two lists, followed by zeros; for any other message, and for bytes
// that are refused, both keep their entries.
#[unsafe(no_mangle)]
pub extern "C" fn menhotrac_read(
    bytes: &[u8],
    provers: &mut [u32; 16],
    verifiers: &mut [u32; 16],
) -> FlatMessage
    ensures value { result ≡ flat_in (reading_of bytes.now) }
    ensures provers_left { provers.new ≡ provers_after (reading_of bytes.now) provers.old }
    ensures verifiers_left { verifiers.new ≡ verifiers_after (reading_of bytes.now) verifiers.old }
    ensures says { reading_by result provers.new verifiers.new ≡ reading_of bytes.now }
    ensures counts { (result.provers ≤ 16) × (result.verifiers ≤ 16) }
    ensures lies { result.place + result.size ≤ length bytes.now }
{
    capi::menhotrac_read(bytes, provers, verifiers)
}

// The event that a message is, by its number and bit, with what the host says of the token.
#[unsafe(no_mangle)]
pub extern "C" fn menhotrac_event_of(number: u32, bit: u32, token: FlatToken) -> FlatEvent
    ensures { result ≡ flat_event_with (code_of number) bit token }
{
    capi::menhotrac_event_of(number, bit, token)
}
