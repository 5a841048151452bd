// The grant of a cycle, and the C64 side's next access.
ghost use Rattle.std.specs.Prelude.{◌≡◌, ◌&&◌};
ghost use Rattle.transfer.specs.Prelude.{Swap, bool_eq};
ghost use Rattle.transfer.specs.Timing.{Accesses, Grants, access_number, access_of, action_for_cycle, action_number, read_again, recall_starts, restored, resumes, swap_reads, swap_writes};
ghost use Rattle.transfer.specs.Dma.{is_type, is_write_phase};

use crate::constants::ACCESS_KIND;
use crate::dma::{DmaState, SwapPhase, TransferType};
use crate::memory::{C64Address, Put};

// The decision for one cycle: no command owns the bus; the command waits while BA is low; one phase advances.
#[derive(Clone, Copy, Debug, PartialEq, Eq)]
pub enum ReuBusAction {
    Cpu,
    Hold,
    Transfer,
}

// What the next granted cycle does on the C64's bus. Three cases side by side, as in the original: as an `Option` around two, each match would
// name the same three cases.
#[derive(Clone, Copy, Debug, PartialEq, Eq)]
pub enum ReuC64Access {
    None,
    Read(C64Address),
    Write(C64Address),
}

#[tactic(auto, unfolding(crate::specs::Timing::action_for_cycle))]
pub fn action_for_cycle(dma_active: bool, ba_high: bool) -> ReuBusAction
    ensures { result ≡ action_for_cycle dma_active ba_high }
{
    match (dma_active, ba_high) {
        (false, _) => ReuBusAction::Cpu,
        (true, false) => ReuBusAction::Hold,
        (true, true) => ReuBusAction::Transfer,
    }
}

// What the C64's bus sees next: nothing where no command runs.
pub fn c64_access(dma: Option<DmaState>, refresh: bool) -> ReuC64Access
    ensures { result ≡ access_of refresh dma }
{
    dma.map_or(ReuC64Access::None, |d| d.access(refresh))
}

// The numbers of an answer, as include/reu.h has them, and back.

// A number that stands for no answer.
#[derive(Clone, Copy, Debug, PartialEq, Eq)]
pub struct NoAnswer(pub u32);

impl From<ReuBusAction> for u32 {
    ghost from_gives = { λ action n. n ≡ action_number action };

    fn from(action: ReuBusAction) -> u32 {
        match action {
            ReuBusAction::Cpu => 0,
            ReuBusAction::Hold => 1,
            ReuBusAction::Transfer => 2,
        }
    }
}

impl TryFrom<u32> for ReuBusAction {
    type Error = NoAnswer;

    ghost try_from_gives = { Grants };

    fn try_from(value: u32) -> Result<ReuBusAction, NoAnswer> {
        match value {
            0 => Ok(ReuBusAction::Cpu),
            1 => Ok(ReuBusAction::Hold),
            2 => Ok(ReuBusAction::Transfer),
            _ => Err(NoAnswer(value)),
        }
    }
}

impl From<ReuC64Access> for u32 {
    ghost from_gives = { λ access n. n ≡ access_number access };

    fn from(access: ReuC64Access) -> u32 {
        match access {
            ReuC64Access::None => 0,
            ReuC64Access::Read(addr) => ACCESS_KIND + u32::from(addr.0),
            ReuC64Access::Write(addr) => 2 * ACCESS_KIND + u32::from(addr.0),
        }
    }
}

impl TryFrom<u32> for ReuC64Access {
    type Error = NoAnswer;

    ghost try_from_gives = { Accesses };

    fn try_from(value: u32) -> Result<ReuC64Access, NoAnswer> {
        let [low, high, kind, none] = value.to_le_bytes();
        let addr = C64Address(u16::from_le_bytes([low, high]));
        match (none, kind, addr.0) {
            (0, 0, 0) => Ok(ReuC64Access::None),
            (0, 1, _) => Ok(ReuC64Access::Read(addr)),
            (0, 2, _) => Ok(ReuC64Access::Write(addr)),
            _ => Err(NoAnswer(value)),
        }
    }
}

impl DmaState {
    // With a refresh it is a read, whatever the type and the phase.
    pub fn access(self, refresh: bool) -> ReuC64Access
        ensures { result ≡ access_of refresh (Some self) }
    {
        match (self.transfer_type, self.swap_phase) {
            (TransferType::Recall, _) | (TransferType::Swap, SwapPhase::WriteC64) if !refresh => {
                ReuC64Access::Write(self.c64_addr)
            }
            _ => ReuC64Access::Read(self.c64_addr),
        }
    }

    // What the grant asks of the running command.

    // A swap is in its first half, or in its second.
    pub fn swap_reads(self) -> bool
        ensures { result ≡ swap_reads (Some self) }
    {
        self.is_swap_in(SwapPhase::ReadC64)
    }

    pub fn swap_writes(self) -> bool
        ensures { result ≡ swap_writes (Some self) }
    {
        self.is_swap_in(SwapPhase::WriteC64)
    }

    fn is_swap_in(self, phase: SwapPhase) -> bool
        ensures { result ≡ (is_type self.transfer_type Swap && bool_eq (is_write_phase self.swap_phase) (is_write_phase phase)) }
    {
        (self.transfer_type == TransferType::Swap) & (self.swap_phase == phase)
    }

    pub fn recall_starts(self) -> bool
        ensures { result ≡ recall_starts (Some self) }
    {
        (self.transfer_type == TransferType::Recall) & self.first_byte
    }

    // BA rises on a write phase whose read had the same parity.
    pub fn resumes(self, rising: bool, cycle: u64) -> bool
        ensures { result ≡ resumes (Some self) rising cycle }
    {
        rising & self.swap_writes() & (self.read_clock_odd == (cycle & 1 != 0))
    }

    // A swap's write half is given up: the read half comes next, and the storage has its byte again.
    pub fn read_again(self) -> DmaState
        ensures { Some result ≡ read_again (Some self) }
    {
        DmaState {
            swap_phase: SwapPhase::ReadC64,
            ..self
        }
    }

    pub fn restored(self) -> Put
        ensures { result ≡ restored (Some self) }
    {
        Put::Storage(self.reu_addr, self.latch)
    }
}
