// The states, by document 01's names. They are numbers and no enum, since the step takes a record with any number as its state.

pub const CLOSED_UNLOCKED: u32 = 0;

pub const WAIT_FOR_HELLO: u32 = 1;

pub const WAIT_FOR_RA: u32 = 2;

pub const WAIT_FOR_RA_PROVER: u32 = 3;

pub const WAIT_FOR_RA_VERIFIER: u32 = 4;

pub const WAIT_FOR_DAT_AND_RA: u32 = 5;

pub const WAIT_FOR_DAT_AND_RA_VERIFIER: u32 = 6;

pub const ESTABLISHED: u32 = 7;

pub const WAIT_FOR_ACK: u32 = 8;

pub const CLOSED_LOCKED: u32 = 9;
