// The transfer state, and the step that completes a byte.
ghost use Rattle.std.specs.Prelude.{◌≡◌, ◌-◌, true, if◌then◌else◌, nat_eq};
ghost use Rattle.transfer.specs.Dma.{complete_byte, either, latched, passed_in, passed_number, recalled, type_number, type_of, well_dma, well_transfer, with_tail};
ghost use Rattle.transfer.specs.Memory.{seen_at};

use crate::constants::{
    COMMAND_TRANSFER_TYPE_MASK, EXPANSION_ADDRESS_LIMIT, FULL_64K_TRANSFER_LENGTH,
    LAST_C64_ADDRESS, LAST_EXPANSION_ADDRESS,
};
use crate::memory::{C64Address, ExpansionAddress, Seen, seen_at};
use std::ops::BitOr;

#[derive(Clone, Copy, Debug, PartialEq, Eq)]
pub enum TransferType {
    Store,
    Recall,
    Swap,
    Verify,
}

#[derive(Clone, Copy, Debug, PartialEq, Eq)]
pub enum SwapPhase {
    ReadC64,
    WriteC64,
}

// A swap takes two cycles for each byte, and its latch holds the storage's byte between them. Other types stay in the read phase.
#[derive(Clone, Copy, Debug, PartialEq, Eq)]
pub struct DmaState {
    pub transfer_type: TransferType,
    pub swap_phase: SwapPhase,
    pub c64_addr: C64Address,
    pub reu_addr: ExpansionAddress,
    pub remaining: u32,
    pub fix_c64: bool,
    pub fix_reu: bool,
    pub autoload: bool,
    pub latch: u8,
    pub first_byte: bool,
    pub read_clock_odd: bool,
    pub verify_tail: bool,
}

// Which address ran over its top in a byte that was completed: the C64's from $FFFF to 0, the expansion's from $FFFFFF to 0.
#[derive(Clone, Copy, Debug, PartialEq, Eq)]
pub struct Passed {
    pub c64: bool,
    pub expansion: bool,
}

// What completing a byte answers: whether it was the last, which address ran over its top, and the transfer after it, whether it was the last or not.
#[derive(Clone, Copy, Debug, PartialEq, Eq)]
pub struct Completed {
    pub done: bool,
    pub passed: Passed,
    pub dma: DmaState,
}

impl TransferType {
    // The type by its number, bits 0 and 1 of a command. No `From<u8>`: a command's other bits say other things, and the name is what tells.
    #[tactic(auto, unfolding(crate::specs::Dma::type_of))]
    pub fn from_command(command: u8) -> TransferType
        ensures { result ≡ type_of command }
    {
        match command & COMMAND_TRANSFER_TYPE_MASK {
            0 => TransferType::Store,
            1 => TransferType::Recall,
            2 => TransferType::Swap,
            _ => TransferType::Verify,
        }
    }
}

impl From<TransferType> for u8 {
    ghost from_gives = { λ kind n. n ≡ type_number kind };

    fn from(kind: TransferType) -> u8 {
        match kind {
            TransferType::Store => 0,
            TransferType::Recall => 1,
            TransferType::Swap => 2,
            TransferType::Verify => 3,
        }
    }
}

impl Passed {
    // What is reported where no byte is completed.
    pub const NEITHER: Passed = Passed {
        c64: false,
        expansion: false,
    };
}

// What the two add to the value of a tick or a cycle.
impl From<Passed> for u32 {
    ghost from_gives = { λ passed n. n ≡ passed_number passed };

    fn from(passed: Passed) -> u32 {
        2 * u32::from(passed.c64) + 4 * u32::from(passed.expansion)
    }
}

// The marks in a value: its flag adds 1, they 2 and 4.
impl From<u32> for Passed {
    ghost from_gives = { λ n passed. passed ≡ passed_in n };

    fn from(value: u32) -> Passed {
        Passed {
            c64: value & 2 != 0,
            expansion: value & 4 != 0,
        }
    }
}

// The marks of either of two steps.
impl BitOr for Passed {
    type Output = Passed;

    ghost bitor_gives = { λ one other passed. passed ≡ either one other };

    fn bitor(self, other: Passed) -> Passed {
        Passed {
            c64: self.c64 | other.c64,
            expansion: self.expansion | other.expansion,
        }
    }
}

// The last byte leaves the length at 1; 0 is never held.
fn left_after(remaining: u32) -> u32
    ensures { result ≡ (if nat_eq remaining 1 then remaining else remaining - 1) }
{
    if remaining <= 1 {
        remaining
    } else {
        remaining - 1
    }
}

impl DmaState {
    // The only place where the counters move.
    #[tactic(auto, unfolding(crate::specs::Dma::complete_byte))]
    #[inline(always)]
    pub fn complete_byte(self) -> Completed
        ensures { result ≡ complete_byte self }
    {
        let passed = Passed {
            c64: !self.fix_c64 & (self.c64_addr.0 == LAST_C64_ADDRESS),
            expansion: !self.fix_reu & (self.reu_addr.0 == LAST_EXPANSION_ADDRESS),
        };
        let dma = DmaState {
            swap_phase: SwapPhase::ReadC64,
            c64_addr: self.c64_addr.step(self.fix_c64),
            reu_addr: self.reu_addr.step(self.fix_reu),
            remaining: left_after(self.remaining),
            first_byte: false,
            ..self
        };
        Completed {
            done: self.remaining == 1,
            passed,
            dma,
        }
    }

    // The bytes that a tick sees.
    pub fn seen(self, size: u32, bus: &[u8], storage: &[u8]) -> Seen
        ensures { result ≡ seen_at size self.c64_addr self.reu_addr bus.now storage.now }
    {
        seen_at(size, self.c64_addr, self.reu_addr, bus, storage)
    }

    // A repeated recall takes the latch.
    pub fn recalled(self, repeat: bool, seen: Seen) -> u8
        ensures { result ≡ recalled self repeat seen }
    {
        if repeat & !self.first_byte {
            self.latch
        } else {
            seen.storage
        }
    }

    // The first half of a swap's byte.
    pub fn latched(self, seen: Seen, cycle: u64) -> DmaState
        ensures { result ≡ latched self seen cycle }
    {
        DmaState {
            swap_phase: SwapPhase::WriteC64,
            read_clock_odd: cycle & 1 != 0,
            latch: seen.storage,
            ..self
        }
    }

    pub fn with_tail(self) -> DmaState
        ensures { result ≡ with_tail self true }
    {
        DmaState {
            verify_tail: true,
            ..self
        }
    }

    // The test of a transfer that is handed over.
    pub fn well_formed(self) -> bool
        ensures { result ≡ well_transfer self }
    {
        let length = (1 <= self.remaining) & (self.remaining <= FULL_64K_TRANSFER_LENGTH);
        let write = (self.swap_phase != SwapPhase::WriteC64)
            | (self.transfer_type == TransferType::Swap);
        let tail = !self.verify_tail
            | ((self.transfer_type == TransferType::Verify) & (self.remaining == 1));
        length & ((self.reu_addr.0 < EXPANSION_ADDRESS_LIMIT) & (write & tail))
    }
}

// A transfer that is handed over needs storage.
pub fn well_dma(attached: bool, dma: Option<DmaState>) -> bool
    ensures { result ≡ well_dma attached dma }
{
    dma.map_or(true, |d| attached & d.well_formed())
}
