// The numbers of the refusals. They are numbers and no enum, since `Answer` also holds a refusal of the host's interface, which is any number.

// No refusal.
pub const NONE: u32 = 0;

pub const UNKNOWN_CODE: u32 = 1;

pub const UNKNOWN_TIMER: u32 = 2;

pub const WRONG_BIT: u32 = 3;

pub const PAYLOAD_TOO_LONG: u32 = 4;

pub const CACHE_TOO_SHORT: u32 = 5;

pub const LIST_TOO_LONG: u32 = 6;

pub const NOT_WELL_FORMED: u32 = 7;

pub const NUMBER_EXHAUSTED: u32 = 8;

pub const MARGIN_TOO_LARGE: u32 = 9;
