// A message that arrived, given to the step. The host hands over the bytes, what it says of the token, and its own lists.
#![tactic(auto)]

ghost use Rattle.std.specs.Prelude.{◌≡◌};
ghost use Rattle.record.specs.Numbers.{record_in};
ghost use Rattle.protocol.specs.Sheet.{slots_of};
ghost use Rattle.messages.specs.Outer.{reading_of};
ghost use Rattle.inbound.specs.Received.{first_entries, given_in, place_in, received};

use arrival::{also_of, event_of};
use connection::{Answer, Lists, Token, refusals, step_flat};
use effects::NO_ACTIONS;
use messages::{Span, part, read_flat};
use std::num::NonZeroU32;

// What the host gives with the bytes: what it says of the token, what its interface refuses of the token, and its own lists.
// The refusal is given for a message with a token where the step refuses nothing.
#[derive(Clone, Copy, Debug, PartialEq, Eq)]
pub struct Given<'a> {
    pub token: Token,
    pub token_refusal: Option<NonZeroU32>,
    pub our_verifiers: &'a [u32],
    pub our_provers: &'a [u32],
}

// The answer, and where the token or payload lies in the bytes; a message without one, and bytes that are refused, have 0, by `place_in`.
#[derive(Clone, Copy, Debug, PartialEq, Eq)]
pub struct Receipt {
    pub answer: Answer,
    pub place: usize,
}

// The first entries of a list; none where it has not so many. `outcome` does this with bytes: each is one call of std's `get`.
fn first(list: &[u32], count: usize) -> &[u32]
    ensures { result.now ≡ first_entries count list.now }
{
    list.get(..count).unwrap_or(&list[..0])
}

// Reads a message and steps with the event that it is. Bytes that are refused change nothing. The message is read in its flat form, since
// `event_of` takes a number and a bit.
pub fn receive(
    numbers: &mut [u32; 12],
    bytes: &[u8],
    given: Given<'_>,
    cache: &mut [u8],
    slots: &mut [u32; 16],
) -> Receipt
    ensures answer_value { result.answer ≡ (received (record_in numbers.old) bytes.now (given_in given.entry) cache.old).outcome.answer }
    ensures numbers_after { record_in numbers.new ≡ (received (record_in numbers.old) bytes.now (given_in given.entry) cache.old).outcome.connection }
    ensures slots_after { slots.new ≡ slots_of (received (record_in numbers.old) bytes.now (given_in given.entry) cache.old).outcome.actions }
    ensures cache_after { cache.new ≡ (received (record_in numbers.old) bytes.now (given_in given.entry) cache.old).cache }
    ensures place_value { result.place ≡ place_in (reading_of bytes.now) }
{
    let mut provers = [0; 16];
    let mut verifiers = [0; 16];
    let message = read_flat(bytes, &mut provers, &mut verifiers);
    let refusal = message.refusal;
    if refusal > refusals::NONE {
        *slots = NO_ACTIONS.into();
        return Receipt {
            answer: Answer::Refused(refusal),
            place: 0,
        };
    }
    let place = message.place;
    let payload = part(
        bytes,
        Span {
            place,
            size: message.size,
        },
    );
    let answer = step_flat(
        numbers,
        also_of(message.number, given.token_refusal),
        event_of(message.number, message.bit, given.token),
        payload,
        Lists {
            our_verifiers: given.our_verifiers,
            peer_provers: first(&provers, message.provers),
            peer_verifiers: first(&verifiers, message.verifiers),
            our_provers: given.our_provers,
        },
        cache,
        slots,
    );
    Receipt { answer, place }
}
