// A message as numbers, for a caller that cannot take an enum.
ghost use Rattle.std.specs.Prelude.{◌≡◌, ◌≤◌};
ghost use Rattle.fields.specs.Contents.{provers_after, verifiers_after};
ghost use Rattle.messages.specs.Flat.{Known, flat_in, reading_by};
ghost use Rattle.messages.specs.Outer.{reading_of};
ghost use Rattle.messages.specs.Whole.{flat_of};

use crate::outer::contents_of;
use fault::Refusal;
use fields::{Contents, schema};

// A refusal's number, 0 for none, and then the message's number, its bit, how many suites, and where the token or payload
// lies. What a message does not carry is 0; where the bytes are refused, all but the refusal is. The C interface has this type, and a
// host in C can make a value of it with any numbers: so `read_flat` promises the bound of the counts, and not the type.
#[repr(C)]
#[derive(Clone, Copy, Debug, PartialEq, Eq)]
pub struct FlatMessage {
    pub refusal: u32,
    pub number: u32,
    pub bit: u32,
    pub provers: usize,
    pub verifiers: usize,
    pub place: usize,
    pub size: usize,
}

const NOTHING: FlatMessage = FlatMessage {
    refusal: 0,
    number: 0,
    bit: 0,
    provers: 0,
    verifiers: 0,
    place: 0,
    size: 0,
};

// The numbers of what a message holds.
impl From<Result<Contents, Refusal>> for FlatMessage {
    ghost from_gives = { λ contents m. m ≡ flat_of contents };

    fn from(contents: Result<Contents, Refusal>) -> FlatMessage {
        match contents {
            Ok(Contents::Hello(held)) => FlatMessage {
                number: schema::HELLO,
                provers: held.provers,
                verifiers: held.verifiers,
                place: held.token.place,
                size: held.token.size,
                ..NOTHING
            },
            Ok(Contents::Plain { number, part, bit }) => FlatMessage {
                number,
                bit,
                place: part.place,
                size: part.size,
                ..NOTHING
            },
            Err(refusal) => FlatMessage {
                refusal: u32::from(refusal),
                ..NOTHING
            },
        }
    }
}

// Reads one message. The suites of a hello are written to the two lists, followed by zeros; for any other message, and
// for bytes that are refused, both keep their entries.
pub fn read_flat(bytes: &[u8], provers: &mut [u32; 16], verifiers: &mut [u32; 16]) -> FlatMessage
    ensures numbers { result ≡ flat_in (reading_of bytes.now) }
    ensures provers_left { provers.new ≡ provers_after (reading_of bytes.now) provers.old }
    ensures verifiers_left { verifiers.new ≡ verifiers_after (reading_of bytes.now) verifiers.old }
    ensures says { reading_by result provers.new verifiers.new ≡ reading_of bytes.now }
    ensures counts { (result.provers ≤ 16) × (result.verifiers ≤ 16) }
    ensures known { Known result }
{
    FlatMessage::from(contents_of(bytes, provers, verifiers))
}
