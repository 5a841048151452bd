// The eleven registers of the MOS 8726 expansion controller, as bytes: which one an address selects, what a byte of each holds, what a start
// takes from them, and what a transfer and its end leave in them. Values alone, as in `transfer`.
//
// constants and registers are the original's files; start_dma and finish_dma have what these two of its functions do with registers.
// The module `stores` has the list by which live counters and shadows are stored, and how stores are made.
#![tactic(auto)]

mod constants;
mod finish_dma;
mod registers;
mod start_dma;
mod stores;

pub use constants::{
    ADDRESS_CONTROL, ADDRESS_CONTROL_UNUSED_READ_HIGH, BANK_UNUSED_READ_HIGH, C64_ADDRESS_HIGH,
    C64_ADDRESS_LOW, COMMAND, COMMAND_EXECUTE, COMMAND_FF00_DISABLE, INTERRUPT_MASK,
    INTERRUPT_UNUSED_READ_HIGH, REGISTER_COUNT, REU_ADDRESS_BANK, REU_ADDRESS_HIGH,
    REU_ADDRESS_LOW, STATUS, STATUS_IRQ_PENDING, STATUS_VERIFY_ERROR, STATUS_VERSION,
    TRANSFER_LENGTH_HIGH, TRANSFER_LENGTH_LOW, UNUSED_REGISTER_VALUE,
};
pub use finish_dma::{counters, finished, irq_due, marked, stores_at_end};
pub use registers::{acknowledged, register_index, shown, with_bank, with_high, with_low};
pub use start_dma::{length_of, requested};
pub use stores::{COUNTERS, RegisterStore, Stores, made};
