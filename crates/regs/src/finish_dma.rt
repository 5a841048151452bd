// The visible counters, the interrupt, and what the end of a command leaves.
//
// The registers are an array, as in an image and in the definitions: each function takes bytes of it by their numbers, and would first open a struct
// around it. Two addresses and a length are three parameters: the two callers have them as fields of records that differ, and would make a struct
// only to have it taken apart here.
ghost use Rattle.std.specs.Prelude.{◌≡◌};
ghost use Rattle.regs.specs.FinishDma.{counters, finished, irq_due, marked, stores_at_end};

use crate::constants::{
    COMMAND, COMMAND_COMPLETION_MASK, COMMAND_FF00_DISABLE, INTERRUPT_END_OF_BLOCK_ENABLE,
    INTERRUPT_GLOBAL_ENABLE, INTERRUPT_MASK, INTERRUPT_VERIFY_ENABLE, REGISTER_COUNT, STATUS,
    STATUS_END_OF_BLOCK, STATUS_VERIFY_ERROR,
};
use crate::stores::{Stores, counter_stores, made};

pub fn irq_due(regs: [u8; REGISTER_COUNT]) -> bool
    ensures { result ≡ irq_due regs }
{
    let status = regs[STATUS];
    let mask = regs[INTERRUPT_MASK];
    let end_of_block = (status & STATUS_END_OF_BLOCK != 0)
        & (mask & INTERRUPT_END_OF_BLOCK_ENABLE != 0);
    let verify = (status & STATUS_VERIFY_ERROR != 0) & (mask & INTERRUPT_VERIFY_ENABLE != 0);
    (mask & INTERRUPT_GLOBAL_ENABLE != 0) & (end_of_block | verify)
}

// A bit of STATUS that an event sets.
pub fn marked(mut regs: [u8; REGISTER_COUNT], bits: u8, event: bool) -> [u8; REGISTER_COUNT]
    ensures { result ≡ marked regs bits event }
{
    if event {
        regs[STATUS] |= bits;
    }
    regs
}

// Registers 2 to 8 from two addresses and a length.
pub fn counters(
    regs: [u8; REGISTER_COUNT],
    c64: u16,
    expansion: u32,
    length: u32,
) -> [u8; REGISTER_COUNT]
    ensures { result ≡ counters regs c64 expansion length }
{
    made(counter_stores(c64, expansion, length), regs)
}

// STATUS and COMMAND at the end of a command.
pub fn finished(regs: [u8; REGISTER_COUNT], completed: bool) -> [u8; REGISTER_COUNT]
    ensures { result ≡ finished regs completed }
{
    let mut ended = marked(regs, STATUS_END_OF_BLOCK, completed);
    let command = ended[COMMAND];
    ended[COMMAND] = (command & COMMAND_COMPLETION_MASK) | COMMAND_FF00_DISABLE;
    ended
}

// With Autoload registers 2 to 8 are stored from the shadows. What is stored is said here, and made by whoever asks.
pub fn stores_at_end(autoload: bool, c64: u16, expansion: u32, length: u16) -> Stores
    ensures { result ≡ stores_at_end autoload c64 expansion length }
{
    if autoload {
        return Some(counter_stores(c64, expansion, u32::from(length)));
    }
    None
}
