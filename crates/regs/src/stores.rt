// Stores of registers, made one after another; and those of registers 2 to 8, from two addresses and a length: the live counters, and what the
// end of a command with Autoload stores.
ghost use Rattle.std.specs.Prelude.{◌≡◌, ◌<◌};
ghost use Rattle.regs.specs.Stores.{counter_stores, made, store};

use crate::constants::{
    C64_ADDRESS_HIGH, C64_ADDRESS_LOW, REGISTER_COUNT, REU_ADDRESS_BANK, REU_ADDRESS_HIGH,
    REU_ADDRESS_LOW, TRANSFER_LENGTH_HIGH, TRANSFER_LENGTH_LOW,
};

// How many the address and length registers are, 2 to 8.
pub const COUNTERS: usize = 7;

#[derive(Clone, Copy, Debug, PartialEq, Eq)]
pub struct RegisterStore {
    pub index: u8,
    pub value: u8,
}

// What a step hands out: the stores in their order, or none.
pub type Stores = Option<[RegisterStore; COUNTERS]>;

// A register's number is a place in an array everywhere else; here it is a byte, since a step's answer carries seven of them. None is above 255.
fn store(index: usize, value: u8) -> RegisterStore
    requires { index < 256 }
    ensures { result ≡ store index value }
{
    RegisterStore {
        index: index as u8,
        value,
    }
}

// Registers 2 to 8 from two addresses and a length.
pub(crate) fn counter_stores(c64: u16, expansion: u32, length: u32) -> [RegisterStore; COUNTERS]
    ensures { result ≡ counter_stores c64 expansion length }
{
    let [c64_low, c64_high] = c64.to_le_bytes();
    let [low, high, bank, _] = expansion.to_le_bytes();
    let [length_low, length_high, _, _] = length.to_le_bytes();
    [
        store(C64_ADDRESS_LOW, c64_low),
        store(C64_ADDRESS_HIGH, c64_high),
        store(REU_ADDRESS_LOW, low),
        store(REU_ADDRESS_HIGH, high),
        store(REU_ADDRESS_BANK, bank),
        store(TRANSFER_LENGTH_LOW, length_low),
        store(TRANSFER_LENGTH_HIGH, length_high),
    ]
}

// Makes stores, one after another. One that names no register stores nothing.
#[tactic(auto, using(crate::proofs::OneMore::one_more, crate::proofs::OneMore::one_past, crate::proofs::OneMore::all_made))]
pub fn made(
    stores: [RegisterStore; COUNTERS],
    mut regs: [u8; REGISTER_COUNT],
) -> [u8; REGISTER_COUNT]
    ensures { result ≡ made stores regs }
{
    for one in &stores {
        let index = usize::from(one.index);
        if index < REGISTER_COUNT {
            regs[index] = one.value;
        }
    }
    regs
}
