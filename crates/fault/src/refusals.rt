// The refusals' numbers.
pub const ENDS_TOO_SOON: u32 = 21;

pub const UNEXPECTED_FIELD: u32 = 22;

pub const WRONG_WIRE_TYPE: u32 = 23;

pub const NUMBER_TOO_LARGE: u32 = 24;

pub const TOO_MANY_SUITES: u32 = 25;
