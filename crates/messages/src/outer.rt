// The outer message: one field, which holds one of the nine messages.
ghost use Rattle.std.specs.Prelude.{◌≡◌};
ghost use Rattle.fields.specs.Contents.{contents_in, provers_after, verifiers_after};
ghost use Rattle.messages.specs.Outer.{reading_of};
ghost use Rattle.messages.specs.Whole.{KnownContents, Opened};

use fault::Refusal;
use fields::{Contents, read_at, schema};
use wire::Place;

// The keys of the nine messages, of any wire type, begin with the first of these and end before the second.
const FIRST_KEY: u32 = schema::HELLO * schema::WIRE_TYPES;

const PAST_KEYS: u32 = (schema::ACK + 1) * schema::WIRE_TYPES;

// Which message the outer field holds, and where its length stands.
#[derive(Clone, Copy, Debug, PartialEq, Eq)]
struct Outer {
    message: u32,
    place: usize,
}

// The outer field, by the key at the first byte.
fn outer_field(bytes: &[u8]) -> Result<Outer, Refusal>
    ensures { Opened result bytes.now }
{
    if bytes.is_empty() {
        return Err(Refusal::UnexpectedField);
    }
    let key = Place { bytes, at: 0 }.number()?;
    if (key.value < FIRST_KEY) | (key.value >= PAST_KEYS) {
        return Err(Refusal::UnexpectedField);
    }
    if key.value % schema::WIRE_TYPES != schema::LENGTH_DELIMITED {
        return Err(Refusal::WrongWireType);
    }
    Ok(Outer {
        message: key.value / schema::WIRE_TYPES,
        place: key.next,
    })
}

// What one message holds, from its first byte on.
pub(crate) fn contents_of(
    bytes: &[u8],
    provers: &mut [u32; 16],
    verifiers: &mut [u32; 16],
) -> Result<Contents, Refusal>
    ensures reads { contents_in result provers.new verifiers.new ≡ reading_of bytes.now }
    ensures provers_left { provers.new ≡ provers_after (reading_of bytes.now) provers.old }
    ensures verifiers_left { verifiers.new ≡ verifiers_after (reading_of bytes.now) verifiers.old }
    ensures known { KnownContents result }
{
    let outer = outer_field(bytes)?;
    read_at(
        outer.message,
        Place {
            bytes,
            at: outer.place,
        },
        provers,
        verifiers,
    )
}
