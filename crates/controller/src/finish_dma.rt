// The visible counters, the interrupt, and the end of a command.
ghost use Rattle.std.specs.Prelude.{◌≡◌};
ghost use Rattle.controller.specs.FinishDma.{autoload_stores, finish_dma, publish_live_counters, update_irq, with_stores};

use crate::reu::Reu;
use regs::{STATUS_IRQ_PENDING, Stores, counters, finished, irq_due, made, marked, stores_at_end};
use transfer::DmaState;

impl Reu {
    // This only ever raises the interrupt.
    #[tactic(auto, unfolding(crate::specs::FinishDma::update_irq))]
    pub(crate) fn update_irq(mut self) -> Reu
        ensures { result ≡ update_irq self }
    {
        let due = irq_due(self.regs);
        self.regs = marked(self.regs, STATUS_IRQ_PENDING, due);
        self.irq_pending |= due;
        self
    }

    #[tactic(auto, unfolding(crate::specs::FinishDma::publish_live_counters))]
    pub(crate) fn publish_live_counters(mut self, dma: DmaState) -> Reu
        ensures { result ≡ publish_live_counters self dma }
    {
        self.regs = counters(self.regs, dma.c64_addr.0, dma.reu_addr.0, dma.remaining);
        self
    }

    // STATUS and COMMAND say that the command has ended. The seven registers that Autoload loads are left to its stores.
    #[tactic(auto, unfolding(crate::specs::FinishDma::finish_dma))]
    #[inline(always)]
    pub(crate) fn finish_dma(self, completed: bool) -> Reu
        ensures { result ≡ finish_dma self completed }
    {
        Reu {
            regs: finished(self.regs, completed),
            ..self.stopped()
        }
        .update_irq()
    }

    // The stores at the end of a command: with Autoload the shadows' bytes.
    pub(crate) fn autoload_stores(self, autoload: bool) -> Stores
        ensures { result ≡ autoload_stores self autoload }
    {
        stores_at_end(
            autoload,
            self.shadow_c64_addr,
            self.shadow_reu_addr,
            self.shadow_len,
        )
    }

    // Makes what is handed out.
    pub(crate) fn with_stores(mut self, stores: Stores) -> Reu
        ensures { result ≡ with_stores self stores }
    {
        if let Some(seven) = stores {
            self.regs = made(seven, self.regs);
        }
        self
    }
}
