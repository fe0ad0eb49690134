// The fields of a HELLO.
ghost use Rattle.std.specs.Prelude.{◌≡◌, [], ◌+◌, ◌≤◌, length};
ghost use Rattle.wire.specs.Lists.{padded};
ghost use Rattle.fields.specs.Steps.{HelloCounts, HelloStep, Reads, fields_of, hello_in, inner_of};

use crate::keys::misfit;
use crate::{Contents, Held, NO_BYTES, Span, keys, schema};
use fault::Refusal;
use wire::{Packed, Place};

// What one field holds.
#[derive(Clone, Copy, Debug, PartialEq, Eq)]
enum Field {
    Token(Span),
    Provers(Packed),
    Verifiers(Packed),
}

// What the fields hold that have been read: where the token lies, and how many suites each list has.
#[derive(Clone, Copy, Debug, PartialEq, Eq)]
struct Found {
    token: Option<Span>,
    provers: Option<usize>,
    verifiers: Option<usize>,
}

const NOTHING_FOUND: Found = Found {
    token: None,
    provers: None,
    verifiers: None,
};

// One field: its key, and then what the key announces.
fn next_field(
    place: Place<'_>,
    found: Found,
    provers: &mut [u32; 16],
    verifiers: &mut [u32; 16],
) -> Result<Field, Refusal>
    ensures { HelloStep place.entry.bytes.now place.entry.at found provers.old verifiers.old result provers.new verifiers.new }
{
    let key = place.number()?;
    let content = Place {
        at: key.next,
        ..place
    };
    let has_token = found.token.is_some();
    let has_provers = found.provers.is_some();
    let has_verifiers = found.verifiers.is_some();
    if (key.value == keys::BYTES) & !has_token {
        let token = content.block()?;
        return Ok(Field::Token(token));
    }
    if (key.value == keys::PROVERS) & !has_provers {
        let list = content.packed(provers)?;
        return Ok(Field::Provers(list));
    }
    if (key.value == keys::VERIFIERS) & !has_verifiers {
        let list = content.packed(verifiers)?;
        return Ok(Field::Verifiers(list));
    }
    let field = key.value / schema::WIRE_TYPES;
    let expected = ((field == schema::BYTES) & !has_token)
        | ((field == schema::PROVERS) & !has_provers)
        | ((field == schema::VERIFIERS) & !has_verifiers);
    Err(misfit(expected))
}

// All fields from `start` to the end of the bytes, into lists that hold zeros. The loop goes over places: where the next field stands
// is known when this one is read.
fn read_hello(
    bytes: &[u8],
    start: usize,
    provers: &mut [u32; 16],
    verifiers: &mut [u32; 16],
) -> Result<Held, Refusal>
    requires { (provers.old ≡ padded []) × (verifiers.old ≡ padded []) }
    ensures reads { hello_in result provers.new verifiers.new ≡ fields_of 1 bytes.now start }
    ensures counts { HelloCounts result provers.new verifiers.new }
{
    let mut found = NOTHING_FOUND;
    let mut at = start;
    while at < bytes.len() {
        let field = next_field(Place { bytes, at }, found, provers, verifiers)?;
        match field {
            Field::Token(token) => {
                found.token = Some(token);
                at = token.place + token.size;
            }
            Field::Provers(list) => {
                found.provers = Some(list.count);
                at = list.next;
            }
            Field::Verifiers(list) => {
                found.verifiers = Some(list.count);
                at = list.next;
            }
        }
    }
    Ok(Held {
        token: found.token.unwrap_or(NO_BYTES),
        provers: found.provers.unwrap_or(0),
        verifiers: found.verifiers.unwrap_or(0),
    })
}

// A HELLO in lent bytes. Any byte after it is refused.
pub(crate) fn hello_in(
    bytes: &[u8],
    part: Span,
    provers: &mut [u32; 16],
    verifiers: &mut [u32; 16],
) -> Result<Contents, Refusal>
    requires { part.place + part.size ≤ length bytes.now }
    ensures { Reads 1 result (inner_of 1 bytes.now part.place part.size) provers.old verifiers.old provers.new verifiers.new }
{
    let end = part.place + part.size;
    let mut peer_provers = [0; 16];
    let mut peer_verifiers = [0; 16];
    let held = read_hello(
        &bytes[..end],
        part.place,
        &mut peer_provers,
        &mut peer_verifiers,
    )?;
    if end < bytes.len() {
        return Err(Refusal::UnexpectedField);
    }
    *provers = peer_provers;
    *verifiers = peer_verifiers;
    Ok(Contents::Hello(held))
}
