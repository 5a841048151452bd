// The register that an address selects, and what a byte of one holds.
ghost use Rattle.std.specs.Prelude.{◌≡◌, ◌<◌};
ghost use Rattle.transfer.specs.Bytes.{with_bank, with_high, with_low};
ghost use Rattle.regs.specs.Registers.{acknowledged, register_index, shown};

use crate::constants::{
    ADDRESS_CONTROL, ADDRESS_CONTROL_UNUSED_READ_HIGH, BANK_UNUSED_READ_HIGH, INTERRUPT_MASK,
    INTERRUPT_UNUSED_READ_HIGH, REGISTER_INDEX_MASK, REU_ADDRESS_BANK, STATUS_EVENT_MASK,
};

// A byte of a shadow is replaced by a mask and a shift. A shadow of 16 bits stays one. Three functions, since a bank has nothing above it:
// one with the byte's place as a parameter would test for that, and ask that its shift is small.

#[tactic(auto, using(crate::proofs::Laws::lowest_replaced))]
pub fn with_low(n: u32, v: u8) -> u32
    ensures value { result ≡ with_low n v }
    ensures fits { n < 65536 → result < 65536 }
{
    (n & 0xFFFF_FF00) | u32::from(v)
}

#[tactic(auto, using(crate::proofs::Laws::middle_replaced))]
pub fn with_high(n: u32, v: u8) -> u32
    ensures value { result ≡ with_high n v }
    ensures fits { n < 65536 → result < 65536 }
{
    (n & 0xFFFF_00FF) | (u32::from(v) << 8)
}

pub fn with_bank(n: u32, v: u8) -> u32
    ensures { result ≡ with_bank n v }
{
    (n & 0x0000_FFFF) | (u32::from(v) << 16)
}

// The register that an address selects.
pub fn register_index(addr: u16) -> usize
    ensures { result ≡ register_index addr }
{
    usize::from(addr & REGISTER_INDEX_MASK)
}

// A register's byte as it is kept and read: what is not connected is 1. By the register's number, as its address has it.
pub fn shown(index: usize, value: u8) -> u8
    ensures { result ≡ shown index value }
{
    match index {
        REU_ADDRESS_BANK => value | BANK_UNUSED_READ_HIGH,
        INTERRUPT_MASK => value | INTERRUPT_UNUSED_READ_HIGH,
        ADDRESS_CONTROL => value | ADDRESS_CONTROL_UNUSED_READ_HIGH,
        _ => value,
    }
}

// STATUS after a read of it.
pub fn acknowledged(status: u8) -> u8
    ensures { result ≡ acknowledged status }
{
    status & !STATUS_EVENT_MASK
}
