// The names of the handshake timers in a handshake timeout. They are numbers and no enum, since the step takes any number as a name.

pub const H: u32 = 0;

pub const HP: u32 = 1;

pub const HV: u32 = 2;
