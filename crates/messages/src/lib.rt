// A reader of the peer's messages: one message of our schema from lent bytes.
#![tactic(auto)]

ghost use Rattle.std.specs.Prelude.{◌≡◌};
ghost use Rattle.fields.specs.Contents.{provers_after, verifiers_after};
ghost use Rattle.messages.specs.Outer.{reading_of};
ghost use Rattle.messages.specs.Numbers.{CountsFit, part_of, reading_in};
ghost use Rattle.messages.specs.Whole.{MessageAs};

mod flat;
mod outer;

pub use crate::flat::{FlatMessage, read_flat};
use crate::outer::contents_of;
use fault::Refusal;
use fields::Contents;
pub use fields::{Held, Span, schema};

// A message. The suites of a hello stand in the lists that the caller lends.
#[derive(Clone, Copy, Debug, PartialEq, Eq)]
pub enum Message {
    Hello(Held),
    Close,
    DatExpired,
    Dat(Span),
    ReRa,
    RaProver(Span),
    RaVerifier(Span),
    Data { payload: Span, bit: u32 },
    Ack(u32),
}

// The enum of what a message holds, whose number, without lists, is one of eight. It is no `From`, which anybody could call with
// another number, and of which it promises nothing.
fn message_of(contents: Contents) -> Message
    ensures { MessageAs contents result }
{
    match contents {
        Contents::Hello(held) => Message::Hello(held),
        Contents::Plain { number, part, bit } => match number {
            schema::CLOSE => Message::Close,
            schema::DAT_EXPIRED => Message::DatExpired,
            schema::DAT => Message::Dat(part),
            schema::RE_RA => Message::ReRa,
            schema::RA_PROVER => Message::RaProver(part),
            schema::RA_VERIFIER => Message::RaVerifier(part),
            schema::DATA => Message::Data { payload: part, bit },
            _ => Message::Ack(bit),
        },
    }
}

// Reads one message, as `read_flat` does, and answers with an enum, or says why there is none.
pub fn read(
    bytes: &[u8],
    provers: &mut [u32; 16],
    verifiers: &mut [u32; 16],
) -> Result<Message, Refusal>
    ensures reads { reading_in result provers.new verifiers.new ≡ reading_of bytes.now }
    ensures provers_left { provers.new ≡ provers_after (reading_of bytes.now) provers.old }
    ensures verifiers_left { verifiers.new ≡ verifiers_after (reading_of bytes.now) verifiers.old }
    ensures counts_fit { CountsFit result }
{
    let contents = contents_of(bytes, provers, verifiers)?;
    Ok(message_of(contents))
}

// The token or payload of a message: a part of the bytes that it was read from. For a span that is not in them the part is empty, and
// lies where they begin; a `&[]` would lie elsewhere.
pub fn part<'a>(bytes: &'a [u8], span: Span) -> &'a [u8]
    ensures { result.now ≡ part_of bytes.now span }
{
    let rest = bytes.get(span.place..).unwrap_or(&bytes[..0]);
    rest.get(..span.size).unwrap_or(&bytes[..0])
}
