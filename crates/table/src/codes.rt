// The codes of the events, by document 01's names. They are numbers and no enum, since the step takes any number as a code.

pub const UPPER_START_HANDSHAKE: u32 = 0;

pub const UPPER_CLOSE: u32 = 1;

pub const UPPER_SEND_DATA: u32 = 2;

pub const UPPER_RE_RA: u32 = 3;

pub const RA_VERIFIER_OK: u32 = 4;

pub const RA_VERIFIER_FAILED: u32 = 5;

pub const RA_VERIFIER_MSG: u32 = 6;

pub const RA_PROVER_OK: u32 = 7;

pub const RA_PROVER_FAILED: u32 = 8;

pub const RA_PROVER_MSG: u32 = 9;

pub const SC_ERROR: u32 = 10;

pub const SC_HELLO: u32 = 11;

pub const SC_CLOSE: u32 = 12;

pub const SC_DAT: u32 = 13;

pub const SC_DAT_EXPIRED: u32 = 14;

pub const SC_RA_PROVER: u32 = 15;

pub const SC_RA_VERIFIER: u32 = 16;

pub const SC_RE_RA: u32 = 17;

pub const SC_DATA: u32 = 18;

pub const SC_ACK: u32 = 19;

pub const HANDSHAKE_TIMEOUT: u32 = 20;

pub const DAT_TIMEOUT: u32 = 21;

pub const RA_TIMEOUT: u32 = 22;

pub const ACK_TIMEOUT: u32 = 23;
