// Calls done on the image where it stands: it is not laid down anew, and of the controller that is read from it the compiler keeps what is used.
// The calls on registers are whole. A cycle is done here where it has little to do; else the answer is None, nothing has changed, and it goes the plain way.
ghost use Rattle.std.specs.Prelude.{◌≡◌, ◌&&◌, false, Bool, ℕ};
ghost use Rattle.controller.specs.Calls.{cycle_call};
ghost use Rattle.controller.specs.Registers.{write_register};
ghost use Rattle.transfer.specs.Dma.{is_type};
ghost use Rattle.transfer.specs.Memory.{bus_byte, storage_byte};
ghost use Rattle.controller.specs.Prelude.{Verify, eqb, not};
ghost use Rattle.reu.specs.Exports.{change_both, reu_debug_register, reu_read, reu_write};
ghost use Rattle.reu.specs.Direct.{Short, completed_in, read_in, remembered_in, starts, typed_in};

use crate::refused;
use controller::{Refusal, Reu};
use image::layout::{IMAGE_BYTES, TRANSFER};
use image::{in_place, unpack};
use regs::{
    COMMAND, COMMAND_EXECUTE, COMMAND_FF00_DISABLE, REGISTER_COUNT, STATUS, UNUSED_REGISTER_VALUE,
    acknowledged, register_index, shown,
};
use transfer::{DmaState, Put, SwapPhase, TransferType};

// ---- the registers: looked at, read and written

// What a register holds; nothing changes, and the index is not folded. It is a byte of the image: by a controller that was opened the registers
// would be copied to be indexed.
#[tactic(auto, using(crate::proofs::RegisterLaws::look_other, crate::proofs::RegisterLaws::look_bad, crate::proofs::RegisterLaws::debug_is))]
#[inline(always)]
pub(crate) fn debug(image: &[u8], index: u64) -> u32
    ensures { result ≡ reu_debug_register image.now index }
{
    let Some(fields) = image.as_array::<IMAGE_BYTES>() else {
        return refused(Refusal::Length);
    };
    if !unpack::accepted(fields) {
        return refused(Refusal::Field);
    }
    match usize::try_from(index) {
        Ok(at) if at < REGISTER_COUNT => u32::from(fields[at]),
        _ => u32::from(UNUSED_REGISTER_VALUE),
    }
}

// A read of STATUS acknowledges the events, after the old byte is answered.
#[inline(always)]
fn read_at(image: &mut [u8; IMAGE_BYTES], index: usize) -> u8
    ensures { (result, image.new) ≡ read_in image.old index }
{
    if index >= REGISTER_COUNT {
        return UNUSED_REGISTER_VALUE;
    }
    let stored = image[index];
    if index != STATUS {
        return shown(index, stored);
    }
    let reu = unpack::controller_at(image);
    image[STATUS] = acknowledged(stored);
    in_place::set_flags(
        image,
        Reu {
            irq_pending: false,
            ..reu
        },
    );
    stored
}

#[tactic(auto, using(crate::proofs::RegisterLaws::change_other, crate::proofs::RegisterLaws::change_bad))]
#[inline(always)]
pub(crate) fn read(image: &mut [u8], addr: u16) -> u32
    ensures { (result, image.new) ≡ reu_read image.old addr }
{
    let Some(fields) = image.as_mut_array::<IMAGE_BYTES>() else {
        return refused(Refusal::Length);
    };
    if !unpack::accepted(fields) {
        return refused(Refusal::Field);
    }
    u32::from(read_at(fields, register_index(addr)))
}

// Whether a write begins a command, or would if storage were attached: that changes more than the registers, their shadows and the flags.
#[inline(always)]
pub(crate) fn starts(addr: u16, value: u8) -> bool
    ensures { result ≡ starts addr value }
{
    (register_index(addr) == COMMAND)
        & ((value & COMMAND_EXECUTE != 0) & (value & COMMAND_FF00_DISABLE != 0))
}

// A write that begins no command: COMMAND arms, or disarms.
#[tactic(auto, using(crate::proofs::RegisterLaws::armed_is, crate::proofs::RegisterLaws::other_is))]
#[inline(always)]
fn written(mut reu: Reu, addr: u16, value: u8) -> Reu
    requires { starts addr value ≡ false }
    ensures { result ≡ write_register reu addr value }
{
    let index = register_index(addr);
    if index != COMMAND {
        return reu.write_other(index, value);
    }
    reu.regs[COMMAND] = value;
    reu.waiting_ff00 = value & COMMAND_EXECUTE != 0;
    reu
}

#[tactic(auto, using(crate::proofs::RegisterLaws::change_other, crate::proofs::RegisterLaws::change_bad))]
#[inline(always)]
pub(crate) fn write(image: &mut [u8], addr: u16, value: u8) -> u32
    requires { starts addr value ≡ false }
    ensures { (result, image.new) ≡ reu_write image.old addr value }
{
    let Some(fields) = image.as_mut_array::<IMAGE_BYTES>() else {
        return refused(Refusal::Length);
    };
    if !unpack::accepted(fields) {
        return refused(Refusal::Field);
    }
    let reu = written(unpack::controller_at(fields), addr, value);
    in_place::set_registers(fields, reu);
    in_place::set_flags(fields, reu);
    0
}

// ---- a byte of a transfer

// The counters move, and are shown.
#[inline(always)]
#[tactic(auto, unfolding(transfer::specs::Dma::complete_byte))]
fn complete(image: &mut [u8; IMAGE_BYTES], d: DmaState) -> u32
    ensures { (result, image.new) ≡ completed_in image.old d }
{
    let done = d.complete_byte();
    in_place::set_counters(image, done.dma);
    in_place::set_transfer(image, done.dma);
    1 + u32::from(done.passed)
}

// A byte of a store, a recall or a verify, or one half of a swap's exchange.
#[inline(always)]
fn byte(
    image: &mut [u8; IMAGE_BYTES],
    bus: &mut [u8],
    storage: &mut [u8],
    size: u32,
    d: DmaState,
    cycle: u64,
) -> u32
    ensures { (result, image.new, bus.new, storage.new) ≡ typed_in d.transfer_type size d image.old bus.old storage.old cycle }
{
    match d.transfer_type {
        TransferType::Store => {
            let seen = d.seen(size, bus, storage);
            Put::Storage(d.reu_addr, seen.bus).to_storage(size, storage);
            complete(image, d)
        }
        TransferType::Recall => {
            let latch = d.seen(size, bus, storage).storage;
            Put::Bus(d.c64_addr, latch).to_bus(bus);
            complete(image, DmaState { latch, ..d })
        }
        TransferType::Swap if d.swap_phase == SwapPhase::ReadC64 => {
            let seen = d.seen(size, bus, storage);
            Put::Storage(d.reu_addr, seen.bus).to_storage(size, storage);
            in_place::set_transfer(image, d.latched(seen, cycle));
            1
        }
        TransferType::Swap => {
            Put::Bus(d.c64_addr, d.latch).to_bus(bus);
            complete(image, d)
        }
        TransferType::Verify => complete(image, d),
    }
}

// A verify whose bytes differ ends its command, or goes on to its tail: both go the plain way.
#[inline(always)]
fn differs(size: u32, d: DmaState, bus: &[u8], storage: &[u8]) -> bool
    ensures { result ≡ is_type d.transfer_type Verify && not (eqb (bus_byte bus.now d.c64_addr) (storage_byte size storage.now d.reu_addr)) }
{
    if d.transfer_type != TransferType::Verify {
        return false;
    }
    let seen = d.seen(size, bus, storage);
    seen.bus != seen.storage
}

// ---- the cycle

#[inline(always)]
fn remember(image: &mut [u8; IMAGE_BYTES], ba_high: bool, ba_high_phi1: bool)
    ensures { image.new ≡ remembered_in image.old ba_high ba_high_phi1 }
{
    let mut reu = unpack::controller_at(image);
    reu.remember(ba_high, ba_high_phi1);
    in_place::set_flags(image, reu);
}

// With no transfer: the processor has the bus.
#[inline(always)]
#[tactic(auto, using(crate::proofs::Ways::rest_way, crate::proofs::Families::bytes_of))]
fn rest(
    image: &mut [u8; IMAGE_BYTES],
    bus: &[u8],
    storage: &[u8],
    ba_high: bool,
    ba_high_phi1: bool,
) -> Option<u32>
    ensures { (n : ℕ) (low : Bool) → Short result (image.old, bus.now, storage.now) (image.new, bus.now, storage.now) (change_both (λ u b t. cycle_call u b t ba_high ba_high_phi1 n low) image.old bus.now storage.now) }
{
    if !in_place::rests(image, bus.len(), storage.len()) {
        return None;
    }
    remember(image, ba_high, ba_high_phi1);
    Some(0)
}

// With a transfer and BA as it was: with BA low the processor is held, and with BA high a byte is done.
#[inline(always)]
#[tactic(auto, using(crate::proofs::Ways::hold_way, crate::proofs::Ways::byte_way, crate::proofs::Families::bytes_of))]
fn go_on(
    image: &mut [u8; IMAGE_BYTES],
    bus: &mut [u8],
    storage: &mut [u8],
    ba_high: bool,
    ba_high_phi1: bool,
    cycle: u64,
) -> Option<u32>
    ensures { (low : Bool) → Short result (image.old, bus.old, storage.old) (image.new, bus.new, storage.new) (change_both (λ u b t. cycle_call u b t ba_high ba_high_phi1 cycle low) image.old bus.old storage.old) }
{
    if !in_place::moves(image, bus.len(), storage.len()) {
        return None;
    }
    let reu = unpack::controller_at(image);
    if ba_high_phi1 != reu.ba_was_high {
        return None;
    }
    if !ba_high_phi1 {
        remember(image, ba_high, false);
        return Some(1);
    }
    let d = unpack::transfer_at(image);
    if (d.remaining == 1) || differs(reu.size, d, bus, storage) {
        return None;
    }
    remember(image, ba_high, true);
    in_place::set_granted(image, reu.granted_cycles.saturating_add(1));
    Some(byte(image, bus, storage, reu.size, d, cycle))
}

// The short way of a cycle, if one is taken.
#[inline(always)]
pub(crate) fn cycle(
    image: &mut [u8],
    bus: &mut [u8],
    storage: &mut [u8],
    ba_high: bool,
    ba_high_phi1: bool,
    cycle: u64,
) -> Option<u32>
    ensures { (low : Bool) → Short result (image.old, bus.old, storage.old) (image.new, bus.new, storage.new) (change_both (λ u b t. cycle_call u b t ba_high ba_high_phi1 cycle low) image.old bus.old storage.old) }
{
    let fields = image.as_mut_array::<IMAGE_BYTES>()?;
    if fields[TRANSFER] == 0 {
        rest(fields, bus, storage, ba_high, ba_high_phi1)
    } else {
        go_on(fields, bus, storage, ba_high, ba_high_phi1, cycle)
    }
}
