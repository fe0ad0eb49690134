// The messages of our schema, read field by field.
#![tactic(auto)]

ghost use Rattle.std.specs.Prelude.{◌≡◌};
ghost use Rattle.fields.specs.Contents.{Fits, contents_in, provers_after, verifiers_after};
ghost use Rattle.fields.specs.Message.{reading_at};

mod hello;
mod keys;
mod number;
mod plain;
pub mod schema;

use crate::hello::hello_in;
use crate::number::PlainNumber;
use crate::plain::plain_in;
use fault::Refusal;
use wire::Place;
pub use wire::Span;

// Where an absent field of bytes lies: it counts as 0, as an absent bit and an absent list do, by the definition and in the C interface.
const NO_BYTES: Span = Span { place: 0, size: 0 };

// What a HELLO holds: where its token lies, and how many suites each list has. The suites stand in two arrays that are lent, as the
// C interface lends them.
#[derive(Clone, Copy, Debug, PartialEq, Eq)]
pub struct Held {
    pub token: Span,
    pub provers: usize,
    pub verifiers: usize,
}

// What a message holds. The suites of a HELLO stand in the lists that the caller lends; any other message has a number, bytes
// and a bit. An absent field of bytes lies at 0 and has none.
#[derive(Clone, Copy, Debug, PartialEq, Eq)]
pub enum Contents {
    Hello(Held),
    Plain { number: u32, part: Span, bit: u32 },
}

// Reads the message with this number whose length stands at `place`; any byte after it is refused. The suites of a HELLO are
// written to the two lists, followed by zeros; for any other message, and for bytes that are refused, both keep their
// entries. The number is no enum, since the promise is for every number.
pub fn read_at(
    message: u32,
    place: Place<'_>,
    provers: &mut [u32; 16],
    verifiers: &mut [u32; 16],
) -> Result<Contents, Refusal>
    ensures reads { contents_in result provers.new verifiers.new ≡ reading_at message place.entry.bytes.now place.entry.at }
    ensures provers_left { provers.new ≡ provers_after (reading_at message place.entry.bytes.now place.entry.at) provers.old }
    ensures verifiers_left { verifiers.new ≡ verifiers_after (reading_at message place.entry.bytes.now place.entry.at) verifiers.old }
    ensures fits { Fits message result }
{
    let part = place.block()?;
    if message == schema::HELLO {
        return hello_in(place.bytes, part, provers, verifiers);
    }
    plain_in(PlainNumber { number: message }, place.bytes, part)
}
