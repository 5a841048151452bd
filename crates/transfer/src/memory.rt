// The addresses, and the bytes of the bus and of the expansion's storage.
ghost use Rattle.std.specs.Prelude.{◌≡◌, if◌then◌else◌, set};
ghost use Rattle.transfer.specs.Memory.{bus_byte, chip_mark, is_size, lines, next_c64, next_exp, physical_offset, put_bus, put_storage, seen_at, storage_byte, zeros};

use crate::constants::{CAPACITY_WITHOUT_MARK, EXPANSION_ADDRESS_LIMIT, FEWEST_LINES, MOST_LINES};

// A C64 address, 16 bits.
#[derive(Clone, Copy, Debug, PartialEq, Eq)]
pub struct C64Address(pub u16);

// An expansion address, 24 bits.
#[derive(Clone, Copy, Debug, PartialEq, Eq)]
pub struct ExpansionAddress(pub u32);

// An offset in the storage, after folding.
#[derive(Clone, Copy, Debug, PartialEq, Eq)]
pub struct Offset(pub u32);

// How many address lines a storage of this size has connected.
#[tactic(auto, unfolding(crate::specs::Memory::lines))]
fn lines(size: u64) -> u32
    ensures { result ≡ lines size }
{
    size.trailing_zeros()
}

// A size that may be set, in bytes.
#[tactic(auto, unfolding(crate::specs::Memory::is_size))]
pub fn is_size(size: u64) -> bool
    ensures { result ≡ is_size size }
{
    let connected = lines(size);
    (size.count_ones() == 1) & ((FEWEST_LINES <= connected) & (connected <= MOST_LINES))
}

// The chip-size mark in STATUS.
pub fn chip_mark(size: u32) -> bool
    ensures { result ≡ chip_mark size }
{
    size != CAPACITY_WITHOUT_MARK
}

// The two steps stay two: a trait with its law, for an `if` whose one arm differs, would be longer than both.

impl C64Address {
    // The next address, unless it is fixed.
    pub fn step(self, fixed: bool) -> C64Address
        ensures { result ≡ (if fixed then self else next_c64 self) }
    {
        if fixed {
            self
        } else {
            C64Address(self.0.wrapping_add(1))
        }
    }
}

impl ExpansionAddress {
    // The bits of the connected lines; 32 lines or more would keep them all.
    pub fn physical_offset(self, size: u32) -> Offset
        ensures { result ≡ physical_offset size self }
    {
        let connected = lines(u64::from(size));
        let kept = if connected < 32 {
            (1 << connected) - 1
        } else {
            0xFFFF_FFFF
        };
        Offset(self.0 & kept)
    }

    // The next address, unless it is fixed.
    pub fn step(self, fixed: bool) -> ExpansionAddress
        ensures { result ≡ (if fixed then self else next_exp self) }
    {
        if fixed {
            self
        } else {
            ExpansionAddress(self.0.wrapping_add(1) % EXPANSION_ADDRESS_LIMIT)
        }
    }
}

// The bus and the storage are read and written here alone. A place outside of them, which no tested length leaves, reads 0 and is not written.
// There are two functions for each, since only a storage's place is folded. The size comes from the controller, and bus and storage from the host,
// so the three are no one value. `as usize` widens: std has no `From<u32>` for it.

fn bus_byte(bus: &[u8], addr: C64Address) -> u8
    ensures { result ≡ bus_byte bus.now addr }
{
    bus.get(usize::from(addr.0)).copied().unwrap_or(0)
}

fn storage_byte(size: u32, storage: &[u8], addr: ExpansionAddress) -> u8
    ensures { result ≡ storage_byte size storage.now addr }
{
    let offset = addr.physical_offset(size);
    storage.get(offset.0 as usize).copied().unwrap_or(0)
}

// The two bytes at a transfer's place.
#[derive(Clone, Copy, Debug, PartialEq, Eq)]
pub struct Seen {
    pub bus: u8,
    pub storage: u8,
}

pub fn seen_at(
    size: u32,
    c64: C64Address,
    reu: ExpansionAddress,
    bus: &[u8],
    storage: &[u8],
) -> Seen
    ensures { result ≡ seen_at size c64 reu bus.now storage.now }
{
    Seen {
        bus: bus_byte(bus, c64),
        storage: storage_byte(size, storage, reu),
    }
}

// What a grant or a tick writes: at most one byte. Three cases side by side: as an `Option` around two, each match would name the same three cases.
#[derive(Clone, Copy, Debug, PartialEq, Eq)]
pub enum Put {
    Nothing,
    Bus(C64Address, u8),
    Storage(ExpansionAddress, u8),
}

// A byte at a place; past the end nothing is written. A test and an index: after `get_mut` the proof did not close, since the slice that it
// borrows from is not known any more.
fn set_byte(bytes: &mut [u8], at: usize, value: u8)
    ensures { bytes.new ≡ set bytes.old at value }
{
    if at < bytes.len() {
        bytes[at] = value;
    }
}

impl Put {
    pub fn to_bus(self, bus: &mut [u8])
        ensures { bus.new ≡ put_bus self bus.old }
    {
        match self {
            Put::Bus(addr, value) => set_byte(bus, usize::from(addr.0), value),
            Put::Nothing | Put::Storage(_, _) => {}
        }
    }

    pub fn to_storage(self, size: u32, storage: &mut [u8])
        ensures { storage.new ≡ put_storage size self storage.old }
    {
        match self {
            Put::Storage(addr, value) => {
                let offset = addr.physical_offset(size);
                set_byte(storage, offset.0 as usize, value)
            }
            Put::Nothing | Put::Bus(_, _) => {}
        }
    }
}

// Every byte of the storage becomes 0: for a host too, that begins anew.
#[tactic(auto, unfolding(crate::specs::Memory::zeros))]
pub fn clear(storage: &mut [u8])
    ensures { storage.new ≡ zeros storage.old }
{
    storage.fill(0)
}
