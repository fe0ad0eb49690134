// The numbers in the slots of `Actions`. They are numbers and no enums, since the order sheet of the C interface holds these.

// No message, no order, no payload.
pub const NONE: u32 = 0;

// Messages.

pub const HELLO: u32 = 1;

pub const CLOSE: u32 = 2;

pub const DAT_EXPIRED: u32 = 3;

pub const DAT: u32 = 4;

pub const RE_RA: u32 = 5;

pub const RA_PROVER: u32 = 6;

pub const RA_VERIFIER: u32 = 7;

pub const DATA: u32 = 8;

pub const ACK: u32 = 9;

// Orders to a driver or a timer.

pub const START: u32 = 1;

// To a driver alone.

pub const STOP: u32 = 2;

// Document 01's "pass on".
pub const FORWARD: u32 = 3;

// To a timer alone.

pub const CANCEL: u32 = 2;

// The slice that the payload is a part of.

pub const OF_EVENT: u32 = 1;

pub const OF_CACHE: u32 = 2;
