// The transport layer state machine of IDSCP2: one step for one event.
//
// The host runs sockets, timers, attestation drivers and the check of a token's signature. It hands
// in what happened, and carries out the actions that it gets back.
#![tactic(auto)]

ghost use Rattle.std.specs.Prelude.{◌≡◌, ◌≤◌, length};
ghost use Rattle.std.specs.Int.NonZero.{non_zero_u32_get};
ghost use Rattle.std.specs.Option.{option_map};
ghost use Rattle.record.specs.Limits.{limits};
ghost use Rattle.event.specs.Call.{call_with};
ghost use Rattle.protocol.specs.Block.{stored};
ghost use Rattle.protocol.specs.Step.{refusal_number, refusal_of, result_of};
ghost use Rattle.connection.specs.Also.{result_also};
ghost use Rattle.record.specs.Numbers.{record_in};
ghost use Rattle.protocol.specs.Sheet.{slots_of};

use decision::decide;
use effects::NO_ACTIONS;
pub use event::{Event, timers};
use event::{choose_suites, read};
pub use outcome::{part, refusal_number};
pub use protocol::{Actions, Answer, Outcome, orders, refusals};
pub use record::{Connection, fresh};
use std::num::NonZeroU32;
pub use suites::Lists;
pub use table::{codes, states};
pub use token::Token;

// One step. A handled `UPPER_SEND_DATA` stores its payload in the cache; nothing else writes it.
pub fn step(
    connection: Connection,
    event: Event,
    payload: &[u8],
    lists: Lists<'_>,
    cache: &mut [u8],
) -> Outcome
    ensures value { result ≡ (result_of limits connection (call_with event payload.now lists.entry) cache.old).outcome }
    ensures answer_value { refusal_number result.answer ≡ refusal_of limits connection (call_with event payload.now lists.entry) (length cache.old) }
    ensures cache_after { cache.new ≡ (result_of limits connection (call_with event payload.now lists.entry) cache.old).cache }
{
    let mut numbers = <[u32; 12]>::from(connection);
    let mut slots = <[u32; 16]>::from(NO_ACTIONS);
    let answer = step_flat(&mut numbers, None, event, payload, lists, cache, &mut slots);
    Outcome {
        answer,
        connection: Connection::from(&numbers),
        actions: Actions::from(&slots),
    }
}

// One step on a record that is lent in numbers; it writes the actions in numbers too. `also` is a refusal of the host's
// interface by its number there: it is given where the step refuses nothing.
pub fn step_flat(
    numbers: &mut [u32; 12],
    also: Option<NonZeroU32>,
    event: Event,
    payload: &[u8],
    lists: Lists<'_>,
    cache: &mut [u8],
    slots: &mut [u32; 16],
) -> Answer
    ensures value { result ≡ (result_also (option_map non_zero_u32_get also) (record_in numbers.old) (call_with event payload.now lists.entry) cache.old).outcome.answer }
    ensures numbers_after { record_in numbers.new ≡ (result_also (option_map non_zero_u32_get also) (record_in numbers.old) (call_with event payload.now lists.entry) cache.old).outcome.connection }
    ensures slots_after { slots.new ≡ slots_of (result_also (option_map non_zero_u32_get also) (record_in numbers.old) (call_with event payload.now lists.entry) cache.old).outcome.actions }
    ensures cache_after { cache.new ≡ (result_also (option_map non_zero_u32_get also) (record_in numbers.old) (call_with event payload.now lists.entry) cache.old).cache }
{
    let code = event.code;
    let suites = choose_suites(code, lists);
    let input = read(event, payload.len(), cache.len(), suites);
    let connection = Connection::from(&*numbers);
    let answer = decide(numbers, slots, also, connection, code, input);
    let Answer::Handled = answer else {
        return answer;
    };
    if code == codes::UPPER_SEND_DATA {
        store(cache, payload);
    }
    answer
}

// Copies the payload to the first bytes of the cache. `copy_from_slice` calls memmove, and the archive calls nothing.
fn store(cache: &mut [u8], payload: &[u8])
    requires { length payload.now ≤ length cache.old }
    ensures { cache.new ≡ stored payload.now cache.old }
{
    for (i, byte) in payload.iter().enumerate() {
        cache[i] = *byte;
    }
}
