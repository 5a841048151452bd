// Rows of bus cycles. The exported calls answer numbers, as the C interface has them, and a row compares these: so it may ask for any.
ghost use Rattle.std.specs.Prelude.{◌+◌, ◌<◌, ◌^◌};
ghost use Rattle.script.specs.Lent.{Plays};
ghost use Rattle.script.specs.Operations.{cycle_row, cycles_row, grant_row};

use crate::machine::Machine;
use crate::rows::Inputs;
use transfer::ReuBusAction;

// An answer below this is no refusal: a number, as the C interface has it.
const REFUSAL_UNIT: u32 = 16_777_216;

impl Machine<'_> {
    // One cycle: it answers as it should.
    pub(crate) fn answers(&mut self, inputs: Inputs, cycle: u64, answer: u64) -> bool
        ensures { Plays (cycle_row inputs answer cycle) self.old result self.new }
    {
        let answered = reu::reu_run_reu_cycle(
            self.image,
            self.bus,
            self.storage,
            u32::from(inputs.ba_high),
            cycle,
            0,
            u32::from(inputs.ba_high_phi1),
        );
        u64::from(answered) == answer
    }

    // Cycles from the first on, as many as there should be: each answers as it should. A cycle is its number alone, so a range has them all. The
    // sum fits, since a row's numbers are below 2^33.
    #[tactic(auto, unfolding(crate::specs::Operations::play_cycles), using(crate::proofs::Runs::tick))]
    pub(crate) fn ticks(&mut self, inputs: Inputs, first: u64, count: u64, answer: u64) -> bool
        requires { first + count < 2 ^ 64 }
        ensures { Plays (cycles_row inputs answer count first) self.old result self.new }
    {
        let mut agree = true;
        for cycle in first..first + count {
            agree &= self.answers(inputs, cycle, answer);
        }
        agree
    }

    // One cycle in two calls.
    #[tactic(auto, unfolding(crate::specs::Operations::tick_row))]
    pub(crate) fn grants(&mut self, inputs: Inputs, cycle: u64, grant: u64) -> bool
        ensures { Plays (grant_row inputs cycle grant) self.old result self.new }
    {
        let action = reu::reu_bus_action(
            self.image,
            self.storage,
            u32::from(inputs.ba_high),
            u32::from(inputs.ba_high_phi1),
            cycle,
        );
        let agree = u64::from(action) == grant;
        if action == u32::from(ReuBusAction::Transfer) {
            let ticked = reu::reu_tick_dma(self.image, self.bus, self.storage, cycle, 0);
            return agree & (ticked < REFUSAL_UNIT);
        }
        agree
    }
}
