// The MOS 8726 expansion controller as a value. Each public call that answers a `Result` tests what it is handed, and answers a refusal, changing
// nothing, or does its work. The others test nothing: what they are asked of has been tested, or may be anything.
//
// registers and reu are the original's files; dma, memory and timing are in the crate `transfer`, and what needs no more than the eleven
// registers is in `regs`; each has its part of the original's constants. Four of reu.rs's functions have files of their own: start_dma,
// finish_dma, bus_action, tick_dma. cycle is run_reu_cycle, from the original's src/memory/memory.rs, and the step over a lent controller.
//
// Bus and storage stay two arguments, as the C interface lends them: with a struct of two slices each contract would have one clause more, that it
// still lends the same two. So do BA's inputs and the cycle: they come one by one from the C interface, as from the original's callers.
//
// `#[inline(always)]` stands above functions of the step, of a tick and of a grant, and above a write of a register. A controller by value is
// passed in memory, and a chain of calls that is not made one function copies it at each border; a call that stays one keeps it in memory
// around the calls too. It stands only where the compiler does not make one function by itself, as tools/count-step and tools/count-instructions count
// it, or a count of the call itself: with `tick`, `tick_of` and `fall_on_read` parts of their callers a tick and a grant at a fall take 160 to 240
// instructions fewer and, since a copy waits for what was just written, 0.5 to 0.7 of the time.
#![tactic(auto)]

mod bus_action;
mod constants;
mod cycle;
mod finish_dma;
mod refusals;
mod registers;
mod reu;
mod start_dma;
mod tick_dma;

pub use constants::BUS_BYTES;
pub use cycle::step;
pub use refusals::Refusal;
pub use reu::{Answered, Reu, Step};
