// Where each field of an image starts: the one before plus its width. The low byte of a number comes first. The numbers are those
// of the saved image, and index it, so they are no enum's.
pub const REGISTERS: usize = 0;

pub const SHADOW_C64: usize = REGISTERS + 11;

pub const SHADOW_EXPANSION: usize = SHADOW_C64 + 2;

pub const SHADOW_LENGTH: usize = SHADOW_EXPANSION + 3;

pub const FLAGS: usize = SHADOW_LENGTH + 2;

pub const MORE_FLAGS: usize = FLAGS + 1;

pub const DELAY: usize = MORE_FLAGS + 1;

pub const TRANSFER: usize = DELAY + 1;

pub const TYPE: usize = TRANSFER + 1;

pub const PHASE: usize = TYPE + 1;

pub const TRANSFER_C64: usize = PHASE + 1;

pub const TRANSFER_EXPANSION: usize = TRANSFER_C64 + 2;

pub const REMAINING: usize = TRANSFER_EXPANSION + 3;

pub const LATCH: usize = REMAINING + 2;

pub const OPTIONS: usize = LATCH + 1;

pub const GRANTED_CYCLES: usize = OPTIONS + 1;

pub const IMAGE_BYTES: usize = GRANTED_CYCLES + 4;
