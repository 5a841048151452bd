// The machine's cycle over the controller: run_reu_cycle of the original's src/memory/memory.rs, and the step over a lent controller.
ghost use Rattle.std.specs.Prelude.{◌≡◌, true};
ghost use Rattle.controller.specs.Answers.{step_of, stepped_of};
ghost use Rattle.controller.specs.Calls.{step_call};
ghost use Rattle.controller.specs.Cycle.{counted, cycle_by, run_reu_cycle};
ghost use Rattle.controller.specs.Inner.{Rests};

use crate::refusals::Refusal;
use crate::reu::{Answered, Reu, Step};
use transfer::ReuBusAction;

impl Reu {
    // One more granted cycle.
    #[tactic(auto, unfolding(crate::specs::Cycle::counted))]
    fn counted(mut self) -> Reu
        ensures { result ≡ counted self }
    {
        self.granted_cycles = self.granted_cycles.saturating_add(1);
        self
    }

    #[tactic(auto, unfolding(crate::specs::Cycle::cycle_by))]
    fn cycle_by(
        self,
        action: ReuBusAction,
        bus: &mut [u8],
        storage: &mut [u8],
        cycle: u64,
        ba_low: bool,
    ) -> Answered<Step>
        ensures { (step_of result, bus.new, storage.new) ≡ cycle_by action self bus.old storage.old cycle ba_low }
    {
        match action {
            ReuBusAction::Cpu => self.answered(Step::quiet(false)),
            ReuBusAction::Hold => self.answered(Step::quiet(true)),
            ReuBusAction::Transfer => {
                let ticked = self.tick(bus, storage, cycle, ba_low);
                ticked.reu.counted().answered(Step {
                    flag: true,
                    ..ticked.value
                })
            }
        }
    }

    // Whether a cycle has nothing to do but to remember BA.
    fn rests(self) -> bool
        ensures { result ≡ true → Rests self }
    {
        self.dma.is_none() & (!self.terminal_swap_write & (self.swap_read_delay == 0))
    }

    // One cycle: the grant, and on Transfer a tick, which is counted. Answers false for Cpu.
    #[tactic(auto, unfolding(crate::specs::Cycle::run_reu_cycle, crate::specs::BusAction::bus_action))]
    pub(crate) fn cycle(
        self,
        bus: &mut [u8],
        storage: &mut [u8],
        ba_high: bool,
        ba_high_phi1: bool,
        cycle: u64,
        ba_low: bool,
    ) -> Answered<Step>
        ensures { (step_of result, bus.new, storage.new) ≡ run_reu_cycle self bus.old storage.old ba_high ba_high_phi1 cycle ba_low }
    {
        let granted = self.next_action(ba_high, ba_high_phi1, cycle);
        granted.put.to_storage(self.size, storage);
        granted
            .reu
            .cycle_by(granted.action, bus, storage, cycle, ba_low)
    }
}

// Advances a controller that the caller lends by one cycle: `Reu::run_reu_cycle` on a copy, stored back whole. At rest BA is remembered where
// the controller stands.
#[tactic(auto, using(crate::proofs::Rest::rest_call, crate::proofs::Rest::step_refused))]
pub fn step(
    reu: &mut Reu,
    bus: &mut [u8],
    storage: &mut [u8],
    ba_high: bool,
    ba_high_phi1: bool,
    cycle: u64,
    ba_low: bool,
) -> Result<Step, Refusal>
    ensures { (stepped_of result, reu.new, bus.new, storage.new) ≡ step_call reu.old bus.old storage.old ba_high ba_high_phi1 cycle ba_low }
{
    if reu.rests() {
        reu.test(bus.len(), storage.len())?;
        reu.remember(ba_high, ba_high_phi1);
        return Ok(Step::quiet(false));
    }
    let done = reu.run_reu_cycle(bus, storage, ba_high, ba_high_phi1, cycle, ba_low)?;
    *reu = done.reu;
    Ok(done.value)
}
