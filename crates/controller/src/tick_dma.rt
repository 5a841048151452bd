// One granted cycle of a transfer. A tick sees the two bytes at the transfer's place, and says what it writes and, where it ends a command
// with Autoload, which registers it stores.
//
// The transfer, its bytes, the cycle and BA stay parameters of their own: each function is handed what it looks at, so that a store is seen to ask
// for no cycle, and a read half for no BA.
ghost use Rattle.std.specs.Prelude.{◌≡◌};
ghost use Rattle.controller.specs.Answers.{step_of};
ghost use Rattle.controller.specs.TickDma.{advance, ends, goes_on, shown_last, swap_read, swap_write, tick_by_type, tick_dma, tick_of, tick_recall, tick_refresh, tick_running, tick_store, tick_swap, tick_tail, tick_verify, quiet_tick, with_error};

use crate::reu::{Answered, Reu, Step, TickAnswer};
use regs::{STATUS_VERIFY_ERROR, marked};
use transfer::{Completed, DmaState, Passed, Put, Seen, SwapPhase, TransferType};

impl Reu {
    fn with_error(mut self, error: bool) -> Reu
        ensures { result ≡ with_error self error }
    {
        self.regs = marked(self.regs, STATUS_VERIFY_ERROR, error);
        self
    }

    // A byte is done, and the command goes on: the counters are shown.
    fn goes_on(self, passed: Passed, error: bool, next: DmaState, put: Put) -> TickAnswer
        ensures { result ≡ goes_on self passed error next put }
    {
        let shown = self.with_error(error).publish_live_counters(next);
        TickAnswer {
            flag: true,
            passed,
            stores: None,
            reu: shown.running(next),
            put,
        }
    }

    // What the end of a command finds: with Autoload no live counter is stored.
    fn shown_last(self, next: DmaState) -> Reu
        ensures { result ≡ shown_last self next }
    {
        if next.autoload {
            self
        } else {
            self.publish_live_counters(next)
        }
    }

    // A command ends. With Autoload `self` has the registers as they were before the step: whoever makes the stores that are handed out
    // makes them on these.
    #[inline(always)]
    fn ends(self, passed: Passed, d: DmaState, error: bool, completed: bool, put: Put) -> TickAnswer
        ensures { result ≡ ends self passed d error completed put }
    {
        TickAnswer {
            flag: false,
            passed,
            stores: self.autoload_stores(d.autoload),
            reu: self.with_error(error).finish_dma(completed),
            put,
        }
    }

    // A byte is done, with what was written for it: the counters move.
    #[tactic(auto, unfolding(crate::specs::TickDma::advance, transfer::specs::Dma::complete_byte))]
    #[inline(always)]
    fn advance(self, d: DmaState, error: bool, ba_low: bool, put: Put) -> TickAnswer
        ensures { result ≡ advance self d error ba_low put }
    {
        let Completed { done, passed, dma } = d.complete_byte();
        if error & (!done & (dma.remaining == 1)) {
            return self.goes_on(passed, error, dma.with_tail(), put);
        }
        if done | error {
            let swapped = d.transfer_type == TransferType::Swap;
            let last = Reu {
                swap_release_pending: done & (swapped & !ba_low),
                ..self.shown_last(dma)
            };
            return last.ends(passed, d, error, done, put);
        }
        self.goes_on(passed, error, dma, put)
    }

    // A tick that completes no byte, and so reports neither.
    #[inline(always)]
    fn quiet_tick(self, flag: bool, put: Put) -> TickAnswer
        ensures { result ≡ quiet_tick flag self put }
    {
        TickAnswer {
            flag,
            passed: Passed::NEITHER,
            stores: None,
            reu: self,
            put,
        }
    }

    #[tactic(auto, unfolding(crate::specs::TickDma::tick_store))]
    #[inline(always)]
    fn tick_store(self, d: DmaState, seen: Seen, ba_low: bool) -> TickAnswer
        ensures { result ≡ tick_store self d seen ba_low }
    {
        self.advance(d, false, ba_low, Put::Storage(d.reu_addr, seen.bus))
    }

    #[tactic(auto, unfolding(crate::specs::TickDma::tick_recall))]
    #[inline(always)]
    fn tick_recall(self, d: DmaState, seen: Seen, ba_low: bool) -> TickAnswer
        ensures { result ≡ tick_recall self d seen ba_low }
    {
        let value = d.recalled(self.recall_repeat, seen);
        let reu = Reu {
            recall_repeat: self.recall_repeat & d.first_byte,
            ..self
        };
        let next = DmaState { latch: value, ..d };
        reu.advance(next, false, ba_low, Put::Bus(d.c64_addr, value))
    }

    #[tactic(auto, unfolding(crate::specs::TickDma::swap_read))]
    #[inline(always)]
    fn swap_read(self, d: DmaState, seen: Seen, cycle: u64) -> TickAnswer
        ensures { result ≡ swap_read self d seen cycle }
    {
        self.running(d.latched(seen, cycle))
            .quiet_tick(true, Put::Storage(d.reu_addr, seen.bus))
    }

    #[tactic(auto, unfolding(crate::specs::TickDma::swap_write))]
    #[inline(always)]
    fn swap_write(self, d: DmaState, ba_low: bool) -> TickAnswer
        ensures { result ≡ swap_write self d ba_low }
    {
        self.advance(d, false, ba_low, Put::Bus(d.c64_addr, d.latch))
    }

    #[tactic(auto, unfolding(crate::specs::TickDma::tick_swap))]
    #[inline(always)]
    fn tick_swap(self, d: DmaState, seen: Seen, cycle: u64, ba_low: bool) -> TickAnswer
        ensures { result ≡ tick_swap d.swap_phase self d seen cycle ba_low }
    {
        match d.swap_phase {
            SwapPhase::ReadC64 => self.swap_read(d, seen, cycle),
            SwapPhase::WriteC64 => self.swap_write(d, ba_low),
        }
    }

    #[tactic(auto, unfolding(crate::specs::TickDma::tick_verify))]
    #[inline(always)]
    fn tick_verify(self, d: DmaState, seen: Seen, ba_low: bool) -> TickAnswer
        ensures { result ≡ tick_verify self d seen ba_low }
    {
        let error = seen.bus != seen.storage;
        self.advance(d, error, ba_low, Put::Nothing)
    }

    #[tactic(auto, unfolding(crate::specs::TickDma::tick_refresh))]
    #[inline(always)]
    fn tick_refresh(self, d: DmaState, seen: Seen, cycle: u64) -> TickAnswer
        ensures { result ≡ tick_refresh self d seen cycle }
    {
        let next = DmaState {
            read_clock_odd: cycle & 1 != 0,
            ..d
        };
        let open = Reu {
            swap_refresh: false,
            ..self
        };
        open.running(next)
            .quiet_tick(true, Put::Storage(d.reu_addr, seen.bus))
    }

    #[tactic(auto, unfolding(crate::specs::TickDma::tick_tail))]
    #[inline(always)]
    fn tick_tail(self, d: DmaState, seen: Seen) -> TickAnswer
        ensures { result ≡ tick_tail self d seen }
    {
        let equal = seen.bus == seen.storage;
        self.ends(Passed::NEITHER, d, false, equal, Put::Nothing)
    }

    #[tactic(auto, unfolding(crate::specs::TickDma::tick_by_type))]
    #[inline(always)]
    fn tick_by_type(self, d: DmaState, seen: Seen, cycle: u64, ba_low: bool) -> TickAnswer
        ensures { result ≡ tick_by_type d.transfer_type self d seen cycle ba_low }
    {
        match d.transfer_type {
            TransferType::Store => self.tick_store(d, seen, ba_low),
            TransferType::Recall => self.tick_recall(d, seen, ba_low),
            TransferType::Swap => self.tick_swap(d, seen, cycle, ba_low),
            TransferType::Verify => self.tick_verify(d, seen, ba_low),
        }
    }

    #[tactic(auto, unfolding(crate::specs::TickDma::tick_running))]
    #[inline(always)]
    fn tick_running(self, d: DmaState, seen: Seen, cycle: u64, ba_low: bool) -> TickAnswer
        ensures { result ≡ tick_running self d seen cycle ba_low }
    {
        if self.swap_refresh {
            return self.tick_refresh(d, seen, cycle);
        }
        if d.verify_tail {
            return self.tick_tail(d, seen);
        }
        self.tick_by_type(d, seen, cycle, ba_low)
    }

    // A command needs storage: without it it is dropped.
    #[tactic(auto, unfolding(crate::specs::TickDma::tick_of))]
    #[inline(always)]
    fn tick_of(self, d: DmaState, seen: Seen, cycle: u64, ba_low: bool) -> TickAnswer
        ensures { result ≡ tick_of (Some d) self seen cycle ba_low }
    {
        if self.attached {
            self.tick_running(d, seen, cycle, ba_low)
        } else {
            self.stopped().quiet_tick(false, Put::Nothing)
        }
    }

    // One granted cycle advances one phase.
    #[tactic(auto, unfolding(crate::specs::TickDma::tick_dma, crate::specs::TickDma::tick_of))]
    #[inline(always)]
    pub(crate) fn tick(
        self,
        bus: &mut [u8],
        storage: &mut [u8],
        cycle: u64,
        ba_low: bool,
    ) -> Answered<Step>
        ensures { (step_of result, bus.new, storage.new) ≡ tick_dma self bus.old storage.old cycle ba_low }
    {
        let ticked = match self.dma {
            None => self.quiet_tick(false, Put::Nothing),
            Some(d) => self.tick_of(d, d.seen(self.size, bus, storage), cycle, ba_low),
        };
        ticked.put.to_bus(bus);
        ticked.put.to_storage(self.size, storage);
        ticked.reu.with_stores(ticked.stores).answered(Step {
            flag: ticked.flag,
            passed: ticked.passed,
            stores: ticked.stores,
        })
    }
}
