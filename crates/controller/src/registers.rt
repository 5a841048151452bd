// The register interface.
ghost use Rattle.std.specs.Prelude.{◌≡◌};
ghost use Rattle.transfer.specs.Constants.{address_control, interrupt_mask};
ghost use Rattle.regs.specs.Registers.{shown};
ghost use Rattle.controller.specs.Reu.{set_reg};
ghost use Rattle.controller.specs.FinishDma.{update_irq};
ghost use Rattle.controller.specs.Registers.{debug_register, load_pair, read_register, write_bank, write_c64, write_command, write_exp, write_len, write_other, write_register};

use crate::reu::{Answered, Reu};
use regs::{
    ADDRESS_CONTROL, C64_ADDRESS_HIGH, C64_ADDRESS_LOW, COMMAND, COMMAND_EXECUTE,
    COMMAND_FF00_DISABLE, INTERRUPT_MASK, REGISTER_COUNT, REU_ADDRESS_BANK, REU_ADDRESS_HIGH,
    REU_ADDRESS_LOW, STATUS, TRANSFER_LENGTH_HIGH, TRANSFER_LENGTH_LOW, UNUSED_REGISTER_VALUE,
    acknowledged, register_index, shown, with_bank, with_high, with_low,
};

impl Reu {
    // Reading STATUS acknowledges the events, after the old byte is answered.
    #[tactic(auto, unfolding(crate::specs::Registers::read_register))]
    pub(crate) fn read_register(self, addr: u16) -> Answered<u8>
        ensures { result ≡ read_register self addr }
    {
        let index = register_index(addr);
        match self.regs.get(index).copied() {
            None => self.answered(UNUSED_REGISTER_VALUE),
            Some(stored) if index == STATUS => {
                let mut reu = self;
                reu.regs[STATUS] = acknowledged(stored);
                reu.irq_pending = false;
                reu.answered(stored)
            }
            Some(stored) => self.answered(shown(index, stored)),
        }
    }

    // With bit 7 a command begins at once, or is armed for the access to $FF00.
    #[tactic(auto, unfolding(crate::specs::Registers::write_command))]
    #[inline(always)]
    fn write_command(mut self, value: u8) -> Reu
        ensures { result ≡ write_command self value }
    {
        self.regs[COMMAND] = value;
        self.waiting_ff00 = false;
        if value & COMMAND_EXECUTE == 0 {
            return self;
        }
        if value & COMMAND_FF00_DISABLE == 0 {
            self.waiting_ff00 = true;
            return self;
        }
        self.start_dma()
    }

    // A register's byte; a place outside the registers takes none.
    #[tactic(auto, using(std::proofs::lemmas::List::set_past))]
    #[inline(always)]
    fn with_register(mut self, index: usize, value: u8) -> Reu
        ensures { result ≡ set_reg self index value }
    {
        if index >= REGISTER_COUNT {
            return self;
        }
        self.regs[index] = value;
        self
    }

    // A shadow is shown in the two registers of its pair.
    fn with_pair(self, low: usize, high: usize, shadow: u16) -> Reu
        ensures { result ≡ load_pair self low high shadow }
    {
        let [low_byte, high_byte] = shadow.to_le_bytes();
        self.with_register(low, low_byte)
            .with_register(high, high_byte)
    }

    fn write_c64(mut self, shadow: u16) -> Reu
        ensures { result ≡ write_c64 self shadow }
    {
        self.shadow_c64_addr = shadow;
        self.with_pair(C64_ADDRESS_LOW, C64_ADDRESS_HIGH, shadow)
    }

    fn write_reu(mut self, shadow: u32) -> Reu
        ensures { result ≡ write_exp self shadow }
    {
        let [low, high, _, _] = shadow.to_le_bytes();
        self.shadow_reu_addr = shadow;
        self.with_pair(
            REU_ADDRESS_LOW,
            REU_ADDRESS_HIGH,
            u16::from_le_bytes([low, high]),
        )
    }

    fn write_bank(mut self, bank: u8) -> Reu
        ensures { result ≡ write_bank self bank }
    {
        self.regs[REU_ADDRESS_BANK] = bank;
        self.shadow_reu_addr = with_bank(self.shadow_reu_addr, bank);
        self
    }

    fn write_len(mut self, shadow: u16) -> Reu
        ensures { result ≡ write_len self shadow }
    {
        self.shadow_len = shadow;
        self.with_pair(TRANSFER_LENGTH_LOW, TRANSFER_LENGTH_HIGH, shadow)
    }

    // Enabling an event that is already latched raises the interrupt.
    fn write_mask(mut self, value: u8) -> Reu
        ensures { result ≡ update_irq (set_reg self interrupt_mask (shown interrupt_mask value)) }
    {
        self.regs[INTERRUPT_MASK] = shown(INTERRUPT_MASK, value);
        self.update_irq()
    }

    fn write_control(mut self, value: u8) -> Reu
        ensures { result ≡ set_reg self address_control (shown address_control value) }
    {
        self.regs[ADDRESS_CONTROL] = shown(ADDRESS_CONTROL, value);
        self
    }

    // Any register but COMMAND, by its number. `as u16` drops nothing: what becomes of a shadow of 16 bits has 16. By its two bytes there would
    // be a second way beside the one that an expansion address takes.
    #[inline(always)]
    pub fn write_other(self, index: usize, value: u8) -> Reu
        ensures { result ≡ write_other self index value }
    {
        match index {
            C64_ADDRESS_LOW => self.write_c64(
                with_low(u32::from(self.shadow_c64_addr), value) as u16,
            ),
            C64_ADDRESS_HIGH => self.write_c64(
                with_high(u32::from(self.shadow_c64_addr), value) as u16,
            ),
            REU_ADDRESS_LOW => self.write_reu(with_low(self.shadow_reu_addr, value)),
            REU_ADDRESS_HIGH => self.write_reu(with_high(self.shadow_reu_addr, value)),
            REU_ADDRESS_BANK => self.write_bank(shown(REU_ADDRESS_BANK, value)),
            TRANSFER_LENGTH_LOW => self.write_len(
                with_low(u32::from(self.shadow_len), value) as u16,
            ),
            TRANSFER_LENGTH_HIGH => self.write_len(
                with_high(u32::from(self.shadow_len), value) as u16,
            ),
            INTERRUPT_MASK => self.write_mask(value),
            ADDRESS_CONTROL => self.write_control(value),
            _ => self,
        }
    }

    // By the register's number, as its address has it.
    #[tactic(auto, unfolding(crate::specs::Registers::write_register))]
    #[inline(always)]
    pub(crate) fn write_register(self, addr: u16, value: u8) -> Reu
        ensures { result ≡ write_register self addr value }
    {
        let index = register_index(addr);
        if index == COMMAND {
            self.write_command(value)
        } else {
            self.write_other(index, value)
        }
    }

    // What a register holds; nothing changes, and the index is not folded.
    #[tactic(auto, unfolding(crate::specs::Registers::debug_register))]
    pub(crate) fn register_at(self, index: u64) -> u8
        ensures { result ≡ debug_register self index }
    {
        usize::try_from(index)
            .ok()
            .and_then(|at| self.regs.get(at).copied())
            .unwrap_or(UNUSED_REGISTER_VALUE)
    }
}
