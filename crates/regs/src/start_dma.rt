// The transfer that the registers ask for, which are an array here too (see finish_dma).
ghost use Rattle.std.specs.Prelude.{◌≡◌};
ghost use Rattle.transfer.specs.Bytes.{long, word};
ghost use Rattle.transfer.specs.Dma.{length_of};
ghost use Rattle.regs.specs.StartDma.{requested};

use crate::constants::{
    ADDRESS_CONTROL, ADDRESS_CONTROL_FIX_C64, ADDRESS_CONTROL_FIX_REU, C64_ADDRESS_HIGH,
    C64_ADDRESS_LOW, COMMAND, COMMAND_AUTOLOAD, REGISTER_COUNT, REU_ADDRESS_BANK, REU_ADDRESS_HIGH,
    REU_ADDRESS_LOW, TRANSFER_LENGTH_HIGH, TRANSFER_LENGTH_LOW,
};
use transfer::{
    C64Address, DmaState, ExpansionAddress, FULL_64K_TRANSFER_LENGTH, SwapPhase, TransferType,
};

// Two bytes as one number, the low byte first.
fn word_of(lo: u8, hi: u8) -> u16
    ensures { result ≡ word lo hi }
{
    u16::from_le_bytes([lo, hi])
}

// Two bytes with the bank above them.
fn long_of(lo: u8, hi: u8, bank: u8) -> u32
    ensures { result ≡ long lo hi bank }
{
    u32::from_le_bytes([lo, hi, bank, 0])
}

// Length 0 means 65,536, in the two length registers and in the two bytes that a saved transfer has for what remains.
#[tactic(auto, unfolding(transfer::specs::Dma::length_of))]
pub fn length_of(n: u16) -> u32
    ensures { result ≡ length_of n }
{
    if n == 0 {
        FULL_64K_TRANSFER_LENGTH
    } else {
        u32::from(n)
    }
}

#[tactic(auto, unfolding(crate::specs::StartDma::requested))]
pub fn requested(regs: [u8; REGISTER_COUNT]) -> DmaState
    ensures { result ≡ requested regs }
{
    let command = regs[COMMAND];
    let control = regs[ADDRESS_CONTROL];
    DmaState {
        transfer_type: TransferType::from_command(command),
        swap_phase: SwapPhase::ReadC64,
        c64_addr: C64Address(word_of(regs[C64_ADDRESS_LOW], regs[C64_ADDRESS_HIGH])),
        reu_addr: ExpansionAddress(long_of(
            regs[REU_ADDRESS_LOW],
            regs[REU_ADDRESS_HIGH],
            regs[REU_ADDRESS_BANK],
        )),
        remaining: length_of(word_of(regs[TRANSFER_LENGTH_LOW], regs[TRANSFER_LENGTH_HIGH])),
        fix_c64: control & ADDRESS_CONTROL_FIX_C64 != 0,
        fix_reu: control & ADDRESS_CONTROL_FIX_REU != 0,
        autoload: command & COMMAND_AUTOLOAD != 0,
        latch: 0,
        first_byte: true,
        read_clock_odd: false,
        verify_tail: false,
    }
}
