// A transfer of the MOS 8726 expansion controller: the addresses, the bytes of bus and storage, the transfer state and what completing a
// byte does, the grant of a cycle. Values alone: nothing here is refused but a number that stands for no answer, and no function asks anything of its caller.
//
// constants, dma, memory and timing are the original's files; constants has here what a transfer needs.
#![tactic(auto)]

mod constants;
mod dma;
mod memory;
mod timing;

pub use constants::{EXPANSION_ADDRESS_LIMIT, FULL_64K_TRANSFER_LENGTH};
pub use dma::{Completed, DmaState, Passed, SwapPhase, TransferType, well_dma};
pub use memory::{
    C64Address, ExpansionAddress, Offset, Put, Seen, chip_mark, clear, is_size, seen_at,
};
pub use timing::{NoAnswer, ReuBusAction, ReuC64Access, action_for_cycle, c64_access};
