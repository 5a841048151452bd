// The grant of a cycle: BA's edges, the terminal pair, the delay, then the plain rule.
ghost use Rattle.std.specs.Prelude.{◌≡◌, ◌&&◌};
ghost use Rattle.controller.specs.BusAction.{cpu_ready_after_dma, decide, fall, fall_on_read, fall_on_swap_write, fall_on_write, granted, next_action, plain, repeated, resumed};
ghost use Rattle.controller.specs.Prelude.{not};
ghost use Rattle.controller.specs.Reu.{with_dma, with_history};
ghost use Rattle.controller.specs.Timing.{c64_access};
ghost use Rattle.transfer.specs.Timing.{read_again, restored};

use crate::constants::LONGEST_READ_DELAY;
use crate::reu::{Answered, BusAnswer, Reu};
use regs::{COMMAND, COMMAND_FF00_DISABLE};
use transfer::{Put, ReuBusAction, ReuC64Access, action_for_cycle, c64_access};

impl Reu {
    #[tactic(auto, unfolding(crate::specs::Timing::c64_access))]
    pub fn next_access(self) -> ReuC64Access
        ensures { result ≡ c64_access self }
    {
        c64_access(self.dma, self.swap_refresh)
    }

    // A grant that writes nothing.
    fn granted(self, action: ReuBusAction) -> BusAnswer
        ensures { result ≡ granted action self }
    {
        BusAnswer {
            action,
            reu: self,
            put: Put::Nothing,
        }
    }

    #[tactic(auto, unfolding(crate::specs::BusAction::plain))]
    fn plain(self, ba_high: bool) -> BusAnswer
        ensures { result ≡ plain self ba_high }
    {
        self.granted(action_for_cycle(self.dma.is_some(), ba_high))
    }

    // An immediate recall whose first byte meets a fall repeats its latch.
    #[tactic(auto, unfolding(crate::specs::BusAction::repeated))]
    #[inline(always)]
    fn repeat(mut self, falling: bool) -> Reu
        ensures { result ≡ repeated self falling }
    {
        let immediate = self.regs[COMMAND] & COMMAND_FF00_DISABLE != 0;
        self.recall_repeat |= falling & immediate & self.dma.is_some_and(|d| d.recall_starts());
        self
    }

    #[tactic(auto, unfolding(crate::specs::BusAction::fall_on_read))]
    #[inline(always)]
    fn fall_on_read(mut self) -> BusAnswer
        ensures { result ≡ fall_on_read self }
    {
        if self.dma.is_some_and(|d| d.first_byte) {
            return self.granted(ReuBusAction::Hold);
        }
        if self.dma.is_some_and(|d| d.remaining == 1) {
            self.terminal_swap_write = true;
            return self.granted(ReuBusAction::Transfer);
        }
        self.swap_read_delay = LONGEST_READ_DELAY;
        self.granted(ReuBusAction::Hold)
    }

    // The write half is given up: the storage has its byte again, and the read half comes next.
    #[inline(always)]
    fn read_again(self) -> Reu
        ensures { result ≡ with_dma self (read_again self.dma) }
    {
        Reu {
            dma: self.dma.map(|d| d.read_again()),
            ..self
        }
    }

    fn restored(self) -> Put
        ensures { result ≡ restored self.dma }
    {
        self.dma.map_or(Put::Nothing, |d| d.restored())
    }

    #[tactic(auto, unfolding(crate::specs::BusAction::fall_on_swap_write))]
    #[inline(always)]
    fn fall_on_swap_write(mut self, late: bool) -> BusAnswer
        ensures { result ≡ fall_on_swap_write self late }
    {
        if late {
            self.swap_read_delay = 1;
            self.swap_refresh = true;
            return self.granted(ReuBusAction::Hold);
        }
        BusAnswer {
            action: ReuBusAction::Hold,
            reu: self.read_again(),
            put: self.restored(),
        }
    }

    #[tactic(auto, unfolding(crate::specs::BusAction::fall_on_write))]
    #[inline(always)]
    fn fall_on_write(self) -> BusAnswer
        ensures { result ≡ fall_on_write self }
    {
        if self.dma.is_some_and(|d| d.remaining == 1) {
            return self.granted(ReuBusAction::Hold);
        }
        self.granted(ReuBusAction::Transfer)
    }

    // BA falls: on a swap by its half, on another command by its next access.
    #[tactic(auto, unfolding(crate::specs::BusAction::fall))]
    #[inline(always)]
    fn fall(self, late: bool) -> BusAnswer
        ensures { result ≡ fall self late }
    {
        if self.dma.is_some_and(|d| d.swap_reads()) {
            return self.fall_on_read();
        }
        let access = self.next_access();
        if matches!(access, ReuC64Access::Read(_)) {
            return self.plain(false);
        }
        if self.dma.is_some_and(|d| d.swap_writes()) {
            return self.fall_on_swap_write(late);
        }
        if matches!(access, ReuC64Access::Write(_)) {
            return self.fall_on_write();
        }
        self.plain(false)
    }

    // The terminal pair, the delay, then the fall or the plain rule.
    #[tactic(auto, unfolding(crate::specs::BusAction::decide))]
    #[inline(always)]
    fn decide(mut self, ba_high: bool, falling: bool, late: bool) -> BusAnswer
        ensures { result ≡ decide self ba_high falling late }
    {
        if self.terminal_swap_write {
            self.terminal_swap_write = false;
            return self.granted(ReuBusAction::Transfer);
        }
        match self.swap_read_delay {
            0 if falling => self.fall(late),
            0 => self.plain(ba_high),
            delay => {
                self.swap_read_delay = delay - 1;
                self.granted(if delay == 1 {
                    ReuBusAction::Transfer
                } else {
                    ReuBusAction::Hold
                })
            }
        }
    }

    // Where the write half is given up, the read half comes next.
    fn resumed(self, resumes: bool) -> Reu
        ensures { result ≡ resumed self resumes }
    {
        if resumes { self.read_again() } else { self }
    }

    // What every cycle leaves: BA's level at PHI1, and whether it falls after that.
    pub fn remember(&mut self, ba_high: bool, ba_high_phi1: bool)
        ensures { self.new ≡ with_history self.old ba_high_phi1 (ba_high_phi1 && not ba_high) }
    {
        self.ba_was_high = ba_high_phi1;
        self.late_ba_fall = ba_high_phi1 & !ba_high;
    }

    #[tactic(auto, unfolding(crate::specs::BusAction::next_action))]
    #[inline(always)]
    pub(crate) fn next_action(self, ba_high: bool, ba_high_phi1: bool, cycle: u64) -> BusAnswer
        ensures { result ≡ next_action self ba_high ba_high_phi1 cycle }
    {
        let falling = self.ba_was_high & !ba_high_phi1;
        let rising = !self.ba_was_high & ba_high_phi1;
        let resumes = self.dma.is_some_and(|d| d.resumes(rising, cycle));
        let mut next = self;
        next.remember(ba_high, ba_high_phi1);
        let out = next
            .resumed(resumes)
            .repeat(falling)
            .decide(ba_high_phi1, falling, self.late_ba_fall);
        if resumes {
            BusAnswer {
                put: self.restored(),
                ..out
            }
        } else {
            out
        }
    }

    // The release is used up, whatever BA is.
    pub(crate) fn cpu_ready(self, ba_high: bool) -> Answered<bool>
        ensures { result ≡ cpu_ready_after_dma self ba_high }
    {
        Answered {
            value: self.swap_release_pending | ba_high,
            reu: Reu {
                swap_release_pending: false,
                ..self
            },
        }
    }
}
