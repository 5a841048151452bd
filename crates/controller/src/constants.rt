// The numbers of a wait, of a lent bus and of a new storage.

// The longest wait of a swap's read.
pub(crate) const LONGEST_READ_DELAY: u8 = 2;

// The length of a lent bus, and the size of a new controller's storage.
pub const BUS_BYTES: usize = 65_536;

pub(crate) const REU_1764_CAPACITY_BYTES: u32 = 524_288;
