// The controller, and its public calls. Each tests what it is handed, and answers a refusal, changing nothing, or does its work.
ghost use Rattle.std.specs.Prelude.{◌≡◌, None};
ghost use Rattle.transfer.specs.Dma.{neither};
ghost use Rattle.controller.specs.Enable.{disabled, fresh, new_reu, reset_reu, set_enabled, set_size, with_mark};
ghost use Rattle.controller.specs.Answers.{answer_of, step_answer_of};
ghost use Rattle.controller.specs.Calls.{answered, bus_action_call, c64_access_call, call, capacity, capacity_bytes_call, cpu_ready_call, cycle_call, debug_register_call, dma_active_call, read_call, reset_call, set_enabled_call, set_size_call, step_number, storage_present_call, tick_call, trigger_call, write_call};

use crate::constants::{BUS_BYTES, REU_1764_CAPACITY_BYTES};
use crate::refusals::Refusal;
use regs::{
    ADDRESS_CONTROL_UNUSED_READ_HIGH, BANK_UNUSED_READ_HIGH, COMMAND_FF00_DISABLE,
    INTERRUPT_UNUSED_READ_HIGH, REGISTER_COUNT, STATUS, STATUS_VERSION, Stores,
};
use transfer::{DmaState, Passed, Put, ReuBusAction, chip_mark, clear};

// The eleven registers beside the running command. The fields are the original's, the three shadows among them. The storage is the host's; `attached` says that it is there.
#[derive(Clone, Copy, Debug, PartialEq, Eq)]
pub struct Reu {
    pub regs: [u8; REGISTER_COUNT],
    pub shadow_c64_addr: u16,
    pub shadow_reu_addr: u32,
    pub shadow_len: u16,
    pub enabled: bool,
    pub irq_pending: bool,
    pub attached: bool,
    pub waiting_ff00: bool,
    pub ba_was_high: bool,
    pub recall_repeat: bool,
    pub terminal_swap_write: bool,
    pub late_ba_fall: bool,
    pub swap_refresh: bool,
    pub swap_release_pending: bool,
    pub swap_read_delay: u8,
    pub dma: Option<DmaState>,
    // How many cycles were granted since new, reset or the last start that had storage.
    pub granted_cycles: u32,
    // The size of the storage in bytes; STATUS has its mark.
    pub size: u32,
}

// What a call gives, and the controller after it.
#[derive(Clone, Copy, Debug, PartialEq, Eq)]
pub struct Answered<T> {
    pub value: T,
    pub reu: Reu,
}

// What a tick and a cycle give: whether the command goes on or, of a cycle, whether the processor is held, which address ran over its top, and
// which registers were stored, in their order, where it ended a command with Autoload. The flag says nothing of the rest, so it is no Option's.
#[derive(Clone, Copy, Debug, PartialEq, Eq)]
pub struct Step {
    pub flag: bool,
    pub passed: Passed,
    pub stores: Stores,
}

// A grant, the controller after it, and what is written. It and a tick's answer are two records: as one with a type parameter, what a tick says
// would stand one record deeper in each of its definitions.
#[derive(Clone, Copy, Debug, PartialEq, Eq)]
pub struct BusAnswer {
    pub action: ReuBusAction,
    pub reu: Reu,
    pub put: Put,
}

// What a tick answers: whether the command goes on, which address ran over its top, the stores that it hands out, the controller before these
// are made, and what is written. Its flag is no Option's, as in `Step`.
#[derive(Clone, Copy, Debug, PartialEq, Eq)]
pub struct TickAnswer {
    pub flag: bool,
    pub passed: Passed,
    pub stores: Stores,
    pub reu: Reu,
    pub put: Put,
}

impl Step {
    // A cycle that ticks nothing reports neither, and has stored nothing.
    pub(crate) fn quiet(flag: bool) -> Step
        ensures { result ≡ record { flag = flag; passed = neither; stores = None } }
    {
        Step {
            flag,
            passed: Passed::NEITHER,
            stores: None,
        }
    }
}

// A step's answer with its value as a number.
impl From<Answered<Step>> for Answered<u32> {
    ghost from_gives = { λ step answer. answer ≡ record { value = step_number step.value.flag step.value.passed; reu = step.reu } };

    fn from(step: Answered<Step>) -> Answered<u32> {
        let value = u32::from(step.value.flag) + u32::from(step.value.passed);
        step.reu.answered(value)
    }
}

// A STATUS byte with the mark of a size.
fn with_mark(size: u32, status: u8) -> u8
    ensures { result ≡ with_mark size status }
{
    if chip_mark(size) {
        status | STATUS_VERSION
    } else {
        status & !STATUS_VERSION
    }
}

// A controller after reset.
fn fresh(enabled: bool, attached: bool, size: u32) -> Reu
    ensures { result ≡ fresh enabled attached size }
{
    let regs = [
        with_mark(size, 0),
        COMMAND_FF00_DISABLE,
        0,
        0,
        0,
        0,
        BANK_UNUSED_READ_HIGH,
        0xFF,
        0xFF,
        INTERRUPT_UNUSED_READ_HIGH,
        ADDRESS_CONTROL_UNUSED_READ_HIGH,
    ];
    Reu {
        regs,
        shadow_c64_addr: 0,
        shadow_reu_addr: 0,
        shadow_len: 0xFFFF,
        enabled,
        irq_pending: false,
        attached,
        waiting_ff00: false,
        ba_was_high: true,
        recall_repeat: false,
        terminal_swap_write: false,
        late_ba_fall: false,
        swap_refresh: false,
        swap_release_pending: false,
        swap_read_delay: 0,
        dma: None,
        granted_cycles: 0,
        size,
    }
}

impl Reu {
    pub fn new() -> Reu
        ensures { result ≡ new_reu }
    {
        fresh(false, false, REU_1764_CAPACITY_BYTES)
    }

    pub(crate) fn after_reset(self) -> Reu
        ensures { result ≡ reset_reu self }
    {
        fresh(self.enabled, self.attached, self.size)
    }

    // Another size, with its mark in STATUS.
    #[tactic(auto, unfolding(crate::specs::Enable::set_size))]
    pub(crate) fn sized(mut self, size: u32) -> Reu
        ensures { result ≡ set_size self size }
    {
        self.regs[STATUS] = with_mark(size, self.regs[STATUS]);
        self.size = size;
        self
    }

    // Disabling drops the transfer, clears what a start clears, and lowers the interrupt.
    pub(crate) fn disabled(self) -> Reu
        ensures { result ≡ disabled self }
    {
        Reu {
            enabled: false,
            irq_pending: false,
            ..self.cleared().stopped()
        }
    }

    // The first enabling attaches the storage and clears it.
    #[tactic(auto, unfolding(crate::specs::Enable::set_enabled))]
    pub(crate) fn switched(mut self, storage: &mut [u8], enabled: bool) -> Reu
        ensures { (result, storage.new) ≡ set_enabled self storage.old enabled }
    {
        if !enabled {
            return self.disabled();
        }
        self.enabled = true;
        if self.attached {
            return self;
        }
        self.attached = true;
        clear(storage);
        self
    }
}

impl Reu {
    pub fn capacity(self) -> u32
        ensures { result ≡ capacity self }
    {
        if self.attached { self.size } else { 0 }
    }

    pub(crate) fn answered<T>(self, value: T) -> Answered<T>
        ensures { result ≡ record { value = value; reu = self } }
    {
        Answered { value, reu: self }
    }

    // The answer of a call that lends neither bus nor storage: its value and the controller after it, unless the controller is refused.
    #[tactic(auto, using(crate::proofs::Checked::passed, crate::proofs::Checked::not_passed))]
    fn tested(self, value: u32, after: Reu) -> Result<Answered<u32>, Refusal>
        ensures { answer_of self result ≡ call self (answered value after) }
    {
        // `as usize` widens, as in `test`.
        self.test(BUS_BYTES, self.size as usize)?;
        Ok(after.answered(value))
    }

    // Hard and soft reset do the same.
    #[tactic(auto, unfolding(crate::specs::Calls::reset_call))]
    pub fn reset(self, _hard_reset: bool) -> Result<Answered<u32>, Refusal>
        ensures { answer_of self result ≡ reset_call self }
    {
        self.tested(0, self.after_reset())
    }

    // A size in bytes, before storage is attached: 131,072, 262,144 or 524,288.
    #[tactic(auto, unfolding(crate::specs::Calls::set_size_call), using(crate::proofs::Checked::passed, crate::proofs::Checked::not_passed))]
    pub fn set_size(self, size: u64) -> Result<Answered<u32>, Refusal>
        ensures { answer_of self result ≡ set_size_call self size }
    {
        let tested = self.test_size(size)?;
        Ok(self.sized(tested).answered(0))
    }

    #[tactic(auto, unfolding(crate::specs::Calls::storage_present_call))]
    pub fn storage_present(self) -> Result<Answered<u32>, Refusal>
        ensures { answer_of self result ≡ storage_present_call self }
    {
        self.tested(u32::from(self.attached), self)
    }

    #[tactic(auto, unfolding(crate::specs::Calls::capacity_bytes_call))]
    pub fn capacity_bytes(self) -> Result<Answered<u32>, Refusal>
        ensures { answer_of self result ≡ capacity_bytes_call self }
    {
        self.tested(self.capacity(), self)
    }

    #[tactic(auto, unfolding(crate::specs::Calls::trigger_call))]
    pub fn trigger_ff00(self) -> Result<Answered<u32>, Refusal>
        ensures { answer_of self result ≡ trigger_call self }
    {
        self.tested(0, self.trigger())
    }

    #[tactic(auto, unfolding(crate::specs::Calls::read_call))]
    pub fn read(self, addr: u16) -> Result<Answered<u32>, Refusal>
        ensures { answer_of self result ≡ read_call self addr }
    {
        let read = self.read_register(addr);
        self.tested(u32::from(read.value), read.reu)
    }

    #[tactic(auto, unfolding(crate::specs::Calls::write_call))]
    #[inline(always)]
    pub fn write(self, addr: u16, value: u8) -> Result<Answered<u32>, Refusal>
        ensures { answer_of self result ≡ write_call self addr value }
    {
        self.tested(0, self.write_register(addr, value))
    }

    #[tactic(auto, unfolding(crate::specs::Calls::dma_active_call))]
    pub fn dma_active(self) -> Result<Answered<u32>, Refusal>
        ensures { answer_of self result ≡ dma_active_call self }
    {
        self.tested(u32::from(self.dma.is_some()), self)
    }

    #[tactic(auto, unfolding(crate::specs::Calls::cpu_ready_call))]
    pub fn cpu_ready_after_dma(self, ba_high: bool) -> Result<Answered<u32>, Refusal>
        ensures { answer_of self result ≡ cpu_ready_call self ba_high }
    {
        let ready = self.cpu_ready(ba_high);
        self.tested(u32::from(ready.value), ready.reu)
    }

    #[tactic(auto, unfolding(crate::specs::Calls::debug_register_call))]
    pub fn debug_register(self, index: u64) -> Result<Answered<u32>, Refusal>
        ensures { answer_of self result ≡ debug_register_call self index }
    {
        self.tested(u32::from(self.register_at(index)), self)
    }

    #[tactic(auto, unfolding(crate::specs::Calls::c64_access_call))]
    pub fn c64_access(self) -> Result<Answered<u32>, Refusal>
        ensures { answer_of self result ≡ c64_access_call self }
    {
        self.tested(u32::from(self.next_access()), self)
    }

    #[tactic(auto, unfolding(crate::specs::Calls::set_enabled_call), using(crate::proofs::Checked::passed, crate::proofs::Checked::not_passed))]
    pub fn set_enabled(self, storage: &mut [u8], enabled: bool) -> Result<Answered<u32>, Refusal>
        ensures { (answer_of self result, storage.new) ≡ set_enabled_call self storage.old enabled }
    {
        self.test(BUS_BYTES, storage.len())?;
        Ok(self.switched(storage, enabled).answered(0))
    }

    #[tactic(auto, unfolding(crate::specs::Calls::bus_action_call, crate::specs::BusAction::bus_action), using(crate::proofs::Checked::passed, crate::proofs::Checked::not_passed))]
    pub fn bus_action(
        self,
        storage: &mut [u8],
        ba_high: bool,
        ba_high_phi1: bool,
        cycle: u64,
    ) -> Result<Answered<u32>, Refusal>
        ensures { (answer_of self result, storage.new) ≡ bus_action_call self storage.old ba_high ba_high_phi1 cycle }
    {
        self.test(BUS_BYTES, storage.len())?;
        let granted = self.next_action(ba_high, ba_high_phi1, cycle);
        granted.put.to_storage(self.size, storage);
        Ok(granted.reu.answered(u32::from(granted.action)))
    }

    #[tactic(auto, unfolding(crate::specs::Calls::tick_call), using(crate::proofs::Checked::passed, crate::proofs::Checked::not_passed))]
    pub fn tick_dma(
        self,
        bus: &mut [u8],
        storage: &mut [u8],
        cycle: u64,
        ba_low: bool,
    ) -> Result<Answered<Step>, Refusal>
        ensures { (step_answer_of self result, bus.new, storage.new) ≡ tick_call self bus.old storage.old cycle ba_low }
    {
        self.test(bus.len(), storage.len())?;
        Ok(self.tick(bus, storage, cycle, ba_low))
    }

    #[tactic(auto, unfolding(crate::specs::Calls::cycle_call), using(crate::proofs::Checked::passed, crate::proofs::Checked::not_passed))]
    pub fn run_reu_cycle(
        self,
        bus: &mut [u8],
        storage: &mut [u8],
        ba_high: bool,
        ba_high_phi1: bool,
        cycle: u64,
        ba_low: bool,
    ) -> Result<Answered<Step>, Refusal>
        ensures { (step_answer_of self result, bus.new, storage.new) ≡ cycle_call self bus.old storage.old ba_high ba_high_phi1 cycle ba_low }
    {
        self.test(bus.len(), storage.len())?;
        Ok(self.cycle(bus, storage, ba_high, ba_high_phi1, cycle, ba_low))
    }
}
