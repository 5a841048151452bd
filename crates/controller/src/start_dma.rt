// A start, at once or by the FF00 trigger.
ghost use Rattle.std.specs.Prelude.{◌≡◌};
ghost use Rattle.controller.specs.Reu.{cleared, with_dma};
ghost use Rattle.controller.specs.StartDma.{start_dma, trigger_ff00};

use crate::reu::Reu;
use regs::{COMMAND, COMMAND_EXECUTE, STATUS, STATUS_VERSION, requested};
use transfer::DmaState;

impl Reu {
    // What each start clears.
    pub(crate) fn cleared(self) -> Reu
        ensures { result ≡ cleared self }
    {
        Reu {
            swap_refresh: false,
            swap_release_pending: false,
            terminal_swap_write: false,
            swap_read_delay: 0,
            recall_repeat: false,
            waiting_ff00: false,
            ..self
        }
    }

    // With storage the count of granted cycles begins anew. Without it only bit 7 of COMMAND falls.
    #[tactic(auto, unfolding(crate::specs::StartDma::start_dma))]
    pub(crate) fn start_dma(self) -> Reu
        ensures { result ≡ start_dma self }
    {
        let asked = requested(self.regs);
        let mut reu = self.cleared();
        if reu.attached {
            reu.regs[STATUS] &= STATUS_VERSION;
            reu.irq_pending = false;
            reu.granted_cycles = 0;
            reu.running(asked)
        } else {
            reu.regs[COMMAND] &= !COMMAND_EXECUTE;
            reu
        }
    }

    // The controller with a running command.
    #[inline(always)]
    pub(crate) fn running(self, state: DmaState) -> Reu
        ensures { result ≡ with_dma self (Some state) }
    {
        Reu {
            dma: Some(state),
            ..self
        }
    }

    // The controller with no command.
    pub(crate) fn stopped(self) -> Reu
        ensures { result ≡ with_dma self None }
    {
        Reu { dma: None, ..self }
    }

    // The trigger starts an armed command whose bit 7 is still set.
    #[tactic(auto, unfolding(crate::specs::StartDma::trigger_ff00))]
    pub(crate) fn trigger(self) -> Reu
        ensures { result ≡ trigger_ff00 self }
    {
        let command = self.regs[COMMAND];
        if self.waiting_ff00 & (command & COMMAND_EXECUTE != 0) {
            self.start_dma()
        } else {
            self
        }
    }
}
