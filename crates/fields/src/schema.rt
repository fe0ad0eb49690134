// The numbers of the messages and of their fields, and the wire types, as bytes hold them; the enum is `messages::Message`.
// `protocol::orders` has the messages too, as the order sheet names them: what reads bytes rests on nothing of the step.
pub const HELLO: u32 = 1;

pub const CLOSE: u32 = 2;

pub const DAT_EXPIRED: u32 = 3;

pub const DAT: u32 = 4;

pub const RE_RA: u32 = 5;

pub const RA_PROVER: u32 = 6;

pub const RA_VERIFIER: u32 = 7;

pub const DATA: u32 = 8;

pub const ACK: u32 = 9;

// The token or payload of HELLO, DAT, RA_PROVER, RA_VERIFIER and DATA.
pub const BYTES: u32 = 1;

pub const PROVERS: u32 = 2;

pub const VERIFIERS: u32 = 3;

pub const DATA_BIT: u32 = 2;

pub const ACK_BIT: u32 = 1;

// A key is a field's number times this, plus the wire type.
pub const WIRE_TYPES: u32 = 8;

pub const VARINT: u32 = 0;

pub const LENGTH_DELIMITED: u32 = 2;
