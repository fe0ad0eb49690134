// The fields of a message without lists: every one but HELLO.
ghost use Rattle.std.specs.Prelude.{◌≡◌, Bool, ◌+◌, ◌<◌, ◌≤◌, length};
ghost use Rattle.fields.specs.Steps.{PlainKey, PlainStep, ReadsPlain, fields_of, inner_of, plain_in, plain_marks};

use crate::keys::misfit;
use crate::number::PlainNumber;
use crate::{Contents, NO_BYTES, Span, keys, schema};
use fault::Refusal;
use wire::{Place, Varint};

// What one field holds.
#[derive(Clone, Copy, Debug, PartialEq, Eq)]
enum Field {
    Bytes(Span),
    Bit(Varint),
}

// What all fields hold.
#[derive(Clone, Copy, Debug, PartialEq, Eq)]
struct Plain {
    part: Span,
    bit: u32,
}

// A field of a message below DATA: three of these have bytes, the others no field.
fn part_field(
    message: PlainNumber,
    key: u32,
    content: Place<'_>,
    has_bytes: bool,
) -> Result<Field, Refusal>
    requires { message.number < 8 }
    ensures { (has_bit : Bool) → PlainKey message.number key content.entry.bytes.now content.entry.at (plain_marks has_bytes has_bit) result }
{
    let has_part = (message.number == schema::DAT)
        | (message.number == schema::RA_PROVER)
        | (message.number == schema::RA_VERIFIER);
    if has_part & (key == keys::BYTES) & !has_bytes {
        let part = content.block()?;
        return Ok(Field::Bytes(part));
    }
    let field = key / schema::WIRE_TYPES;
    Err(misfit(has_part & (field == schema::BYTES) & !has_bytes))
}

fn data_field(
    key: u32,
    content: Place<'_>,
    has_bytes: bool,
    has_bit: bool,
) -> Result<Field, Refusal>
    ensures { PlainKey 8 key content.entry.bytes.now content.entry.at (plain_marks has_bytes has_bit) result }
{
    if (key == keys::BYTES) & !has_bytes {
        let part = content.block()?;
        return Ok(Field::Bytes(part));
    }
    if (key == keys::DATA_BIT) & !has_bit {
        let bit = content.bit()?;
        return Ok(Field::Bit(bit));
    }
    let field = key / schema::WIRE_TYPES;
    let expected = ((field == schema::BYTES) & !has_bytes)
        | ((field == schema::DATA_BIT) & !has_bit);
    Err(misfit(expected))
}

// A field of a message above DATA: ACK has a bit, and no other number is a message's.
fn ack_field(message: u32, key: u32, content: Place<'_>, has_bit: bool) -> Result<Field, Refusal>
    requires { 9 ≤ message }
    ensures { (has_bytes : Bool) → PlainKey message key content.entry.bytes.now content.entry.at (plain_marks has_bytes has_bit) result }
{
    let is_ack = message == schema::ACK;
    if is_ack & (key == keys::ACK_BIT) & !has_bit {
        let bit = content.bit()?;
        return Ok(Field::Bit(bit));
    }
    let field = key / schema::WIRE_TYPES;
    Err(misfit(is_ack & (field == schema::ACK_BIT) & !has_bit))
}

// One field: its key, and then what the key announces. Each answer is opened by `?` and made anew: passed on whole, its case
// is tested twice in every turn of the loop.
fn next_field(
    message: PlainNumber,
    place: Place<'_>,
    has_bytes: bool,
    has_bit: bool,
) -> Result<Field, Refusal>
    ensures { PlainStep message.number place.entry.bytes.now place.entry.at (plain_marks has_bytes has_bit) result }
{
    let key = place.number()?;
    let content = Place {
        at: key.next,
        ..place
    };
    if message.number < schema::DATA {
        let field = part_field(message, key.value, content, has_bytes)?;
        return Ok(field);
    }
    if message.number == schema::DATA {
        let field = data_field(key.value, content, has_bytes, has_bit)?;
        return Ok(field);
    }
    let field = ack_field(message.number, key.value, content, has_bit)?;
    Ok(field)
}

// All fields from `start` to the end of the bytes, from place to place as in a HELLO. Bytes and bit are kept apart: a struct of both
// would have padding, which is copied in every turn.
fn read_plain(message: PlainNumber, bytes: &[u8], start: usize) -> Result<Plain, Refusal>
    ensures { plain_in message.number result ≡ fields_of message.number bytes.now start }
{
    let mut part = None;
    let mut bit = None;
    let mut at = start;
    while at < bytes.len() {
        let field = next_field(message, Place { bytes, at }, part.is_some(), bit.is_some())?;
        match field {
            Field::Bytes(span) => {
                part = Some(span);
                at = span.place + span.size;
            }
            Field::Bit(varint) => {
                bit = Some(varint.value);
                at = varint.next;
            }
        }
    }
    Ok(Plain {
        part: part.unwrap_or(NO_BYTES),
        bit: bit.unwrap_or(0),
    })
}

// A message without lists in lent bytes. Any byte after it is refused.
pub(crate) fn plain_in(message: PlainNumber, bytes: &[u8], part: Span) -> Result<Contents, Refusal>
    requires { part.place + part.size ≤ length bytes.now }
    ensures { ReadsPlain message.number result (inner_of message.number bytes.now part.place part.size) }
{
    let end = part.place + part.size;
    let plain = read_plain(message, &bytes[..end], part.place)?;
    if end < bytes.len() {
        return Err(Refusal::UnexpectedField);
    }
    Ok(Contents::Plain {
        number: message.number,
        part: plain.part,
        bit: plain.bit,
    })
}
