// The keys that fit, and why another does not. They are numbers and no enum, since bytes may hold any key.
ghost use Rattle.std.specs.Prelude.{◌≡◌, cond};
ghost use Rattle.fault.specs.declared.Refusal.TheVariants as refusal;

use crate::schema;
use crate::schema::{LENGTH_DELIMITED, VARINT, WIRE_TYPES};
use fault::Refusal;

pub const BYTES: u32 = schema::BYTES * WIRE_TYPES + LENGTH_DELIMITED;

pub const PROVERS: u32 = schema::PROVERS * WIRE_TYPES + LENGTH_DELIMITED;

pub const VERIFIERS: u32 = schema::VERIFIERS * WIRE_TYPES + LENGTH_DELIMITED;

pub const DATA_BIT: u32 = schema::DATA_BIT * WIRE_TYPES + VARINT;

pub const ACK_BIT: u32 = schema::ACK_BIT * WIRE_TYPES + VARINT;

// Why a key does not fit: its field is known and has not been read, so that the wire type is wrong; or it is not expected.
pub(crate) fn misfit(expected: bool) -> Refusal
    ensures { result ≡ cond expected refusal.WrongWireType refusal.UnexpectedField }
{
    if expected {
        return Refusal::WrongWireType;
    }
    Refusal::UnexpectedField
}
