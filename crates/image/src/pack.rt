// A controller laid down in an image, field by field.
ghost use Rattle.std.specs.Prelude.{true, ◌≡◌, ◌+◌, ◌%◌, ◌≤◌};
ghost use Rattle.std.proofs.lemmas.List.Edits.{sets};
ghost use Rattle.controller.specs.Refusals.{well_formed};
ghost use Rattle.transfer.specs.Constants.{expansion_limit};
ghost use Rattle.image.specs.Radix.{parted};
ghost use Rattle.controller.specs.Inner.{InRangeDma};
ghost use Rattle.image.specs.Fields.{laid, radices};
ghost use Rattle.image.specs.Layout.{flag_bits, flags_of, image_size, kind, more_number, option_bits, pack_image, place_of, remaining_number, size_code, transfer_numbers};
ghost use Rattle.image.specs.Inner.{fitted, transfer_part};

use crate::layout::{
    DELAY, FLAGS, GRANTED_CYCLES, IMAGE_BYTES, LATCH, MORE_FLAGS, OPTIONS, PHASE, REGISTERS,
    REMAINING, SHADOW_C64, SHADOW_EXPANSION, SHADOW_LENGTH, TRANSFER, TRANSFER_C64,
    TRANSFER_EXPANSION, TYPE,
};
use controller::Reu;
use transfer::{
    C64Address, DmaState, ExpansionAddress, FULL_64K_TRANSFER_LENGTH, SwapPhase, TransferType,
};

// ---- the bytes of a field from its place on, the low byte of a number first. How many they are says where it ends, and that has to be
// within the image. A type of places would be no plainer: it would carry the width with it, and the code has the width as N.
#[inline(always)]
pub(crate) fn put<const N: usize>(out: &mut [u8; IMAGE_BYTES], place: usize, bytes: [u8; N])
    requires { place + N ≤ image_size }
    ensures { out.new ≡ sets out.old place bytes.entry }
{
    out[place..place + N].copy_from_slice(&bytes);
}

// An address in the expansion has three bytes, and of a number that is larger these are the low ones.
pub(crate) fn three(address: u32) -> [u8; 3]
    ensures { result ≡ parted (radices 3) (address % expansion_limit) }
{
    let [low, middle, high, _] = address.to_le_bytes();
    [low, middle, high]
}

// Two bytes of 0 mean 65,536.
pub(crate) fn remaining(left: u32) -> [u8; 2]
    ensures { result ≡ parted (radices 2) (remaining_number left) }
{
    let [low, high, _, _] = (left % FULL_64K_TRANSFER_LENGTH).to_le_bytes();
    [low, high]
}

// ---- numbers of what is no number: those that a saved image has

// Each flag stands beside its bit. A fold over a list of flags would leave the bits to be counted.

#[tactic(auto, using(crate::proofs::Flags::byte_is_bit))]
#[inline(always)]
pub(crate) fn flags(r: Reu) -> u8
    ensures { result ≡ flags_of (flag_bits r) }
{
    u8::from(r.enabled)
        + 2 * u8::from(r.irq_pending)
        + 4 * u8::from(r.attached)
        + 8 * u8::from(r.waiting_ff00)
        + 16 * u8::from(r.ba_was_high)
        + 32 * u8::from(r.recall_repeat)
        + 64 * u8::from(r.terminal_swap_write)
        + 128 * u8::from(r.late_ba_fall)
}

// 512, 256 or 128 KiB, by the number that a saved image has for it.
fn size_code(size: u32) -> u8
    ensures value { result ≡ size_code size }
    ensures upper_bound { result ≤ 2 }
{
    match size {
        524_288 => 0,
        262_144 => 1,
        _ => 2,
    }
}

fn more_flags(r: Reu) -> u8
    ensures { result ≡ more_number r }
{
    u8::from(r.swap_refresh) + 2 * u8::from(r.swap_release_pending) + 4 * size_code(r.size)
}

#[inline(always)]
fn options(d: DmaState) -> u8
    ensures { result ≡ flags_of (option_bits d) }
{
    u8::from(d.fix_c64)
        + 2 * u8::from(d.fix_reu)
        + 4 * u8::from(d.autoload)
        + 8 * u8::from(d.first_byte)
        + 16 * u8::from(d.read_clock_odd)
        + 32 * u8::from(d.verify_tail)
}

// Without a transfer its fields are 0: those of this one are.
const ZEROS: DmaState = DmaState {
    transfer_type: TransferType::Store,
    swap_phase: SwapPhase::ReadC64,
    c64_addr: C64Address(0),
    reu_addr: ExpansionAddress(0),
    remaining: 0,
    fix_c64: false,
    fix_reu: false,
    autoload: false,
    latch: 0,
    first_byte: false,
    read_clock_odd: false,
    verify_tail: false,
};

fn transfer_of(m: Option<DmaState>) -> DmaState
    requires { InRangeDma m }
    ensures { transfer_numbers (Some (fitted result)) ≡ transfer_numbers m }
{
    m.unwrap_or(ZEROS)
}

// ---- the fields at their places
#[inline(always)]
pub(crate) fn put_transfer(out: &mut [u8; IMAGE_BYTES], d: DmaState)
    ensures { out.new ≡ sets out.old (place_of kind) (laid transfer_part (transfer_numbers (Some (fitted d)))) }
{
    put(out, TYPE, [u8::from(d.transfer_type)]);
    put(out, PHASE, [u8::from(d.swap_phase == SwapPhase::WriteC64)]);
    put(out, TRANSFER_C64, d.c64_addr.0.to_le_bytes());
    put(out, TRANSFER_EXPANSION, three(d.reu_addr.0));
    put(out, REMAINING, remaining(d.remaining));
    put(out, LATCH, [d.latch]);
    put(out, OPTIONS, [options(d)]);
}

// The image of a controller that opening would accept: a number that is too large would not fit its bytes.
pub(crate) fn pack(out: &mut [u8; IMAGE_BYTES], reu: Reu)
    requires { well_formed reu ≡ true }
    ensures { out.new ≡ pack_image reu }
{
    put(out, REGISTERS, reu.regs);
    put(out, SHADOW_C64, reu.shadow_c64_addr.to_le_bytes());
    put(out, SHADOW_EXPANSION, three(reu.shadow_reu_addr));
    put(out, SHADOW_LENGTH, reu.shadow_len.to_le_bytes());
    put(out, FLAGS, [flags(reu)]);
    put(out, MORE_FLAGS, [more_flags(reu)]);
    put(out, DELAY, [reu.swap_read_delay]);
    put(out, TRANSFER, [u8::from(reu.dma.is_some())]);
    put_transfer(out, transfer_of(reu.dma));
    put(out, GRANTED_CYCLES, reu.granted_cycles.to_le_bytes());
}
