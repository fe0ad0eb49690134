// What a host reads off a step's outcome: the number of a refusal, and the payload part that the actions name.
#![tactic(auto)]

ghost use Rattle.std.specs.Prelude.{◌≡◌, is_some};
ghost use Rattle.outcome.specs.Refusal.{number_of, refuses};
ghost use Rattle.protocol.specs.Block as spec;
ghost use Rattle.protocol.specs.Step.{refusal_number};

use protocol::{Actions, Answer, orders};

// The number of a refusal, `None` for an answer that is none.
pub fn refusal_number(answer: Answer) -> Option<u32>
    ensures value { number_of result ≡ refusal_number answer }
    ensures presence { is_some result ≡ refuses answer }
{
    match answer {
        Answer::Refused(number) => Some(number),
        Answer::Handled | Answer::Ignored => None,
    }
}

// The payload part of a call's actions: of the event's payload, or of the cache as the step left it.
#[tactic(auto, unfolding(protocol::specs::Block::part_of))]
pub fn part<'a>(actions: Actions, payload: &'a [u8], cache: &'a [u8]) -> &'a [u8]
    ensures { result.now ≡ spec.part_of actions payload.now cache.now }
{
    let slice = actions.payload_slice;
    let len = actions.payload_len as usize;
    match slice {
        orders::OF_EVENT => front(payload, len),
        orders::OF_CACHE => front(cache, len),
        _ => front(payload, 0),
    }
}

// The first `len` bytes, or none where the slice is shorter than that. An empty part lies in the slice too, where a `&[]` would not:
// the part that a host gets is a part of what it lent.
fn front(bytes: &[u8], len: usize) -> &[u8]
    ensures { result.now ≡ spec.front len bytes.now }
{
    bytes.get(..len).unwrap_or(&bytes[..0])
}
