// The numbers of a transfer.

pub(crate) const COMMAND_TRANSFER_TYPE_MASK: u8 = 0x03;

pub const FULL_64K_TRANSFER_LENGTH: u32 = 65_536;

// The addresses from which a step goes to 0.
pub(crate) const LAST_C64_ADDRESS: u16 = 0xFFFF;

pub(crate) const LAST_EXPANSION_ADDRESS: u32 = 0x00FF_FFFF;

// The first number that is no expansion address.
pub const EXPANSION_ADDRESS_LIMIT: u32 = 0x0100_0000;

// The address lines of the smallest and of the largest storage.
pub(crate) const FEWEST_LINES: u32 = 17;

pub(crate) const MOST_LINES: u32 = 19;

// The size whose chip-size mark is 0.
pub(crate) const CAPACITY_WITHOUT_MARK: u32 = 131_072;

// An access is answered as this times its kind, 1 for a read and 2 for a write, plus the address.
pub(crate) const ACCESS_KIND: u32 = 65_536;
