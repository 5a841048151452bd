// An image where it stands: setters, each of which lays down its fields and leaves all other bytes, and two tests, which say that an image is accepted,
// that what is lent has its length, and that a cycle has little to do. What is not looked at is not opened.
ghost use Rattle.std.specs.Prelude.{◌≡◌, true, ◌%◌};
ghost use Rattle.std.proofs.lemmas.List.Edits.{sets};
ghost use Rattle.transfer.specs.Constants.{expansion_limit};
ghost use Rattle.regs.specs.FinishDma.{counters};
ghost use Rattle.image.specs.Fields.{laid};
ghost use Rattle.image.specs.Layout.{flag_bits, flags, flags_of, granted_field, kind, place_of, shadow_c64, shadow_exp, shadow_length, transfer_numbers};
ghost use Rattle.image.specs.Inner.{fitted, gets, stored, transfer_part};
ghost use Rattle.std.specs.Int.{from_le_bytes, w64};
ghost use Rattle.image.specs.InPlace.{Moving, Resting, Sized};

use crate::layout::{
    FLAGS, GRANTED_CYCLES, IMAGE_BYTES, MORE_FLAGS, OPTIONS, PHASE, REGISTERS, SHADOW_C64,
    SHADOW_EXPANSION, SHADOW_LENGTH, TRANSFER_C64, TYPE,
};
use crate::pack;
use crate::unpack::bytes;
use controller::{BUS_BYTES, Reu};
use regs::{C64_ADDRESS_LOW, REU_ADDRESS_LOW, STATUS, STATUS_VERSION, TRANSFER_LENGTH_LOW};
use transfer::DmaState;

// ---- the registers, the eight flags, the count, the registers' counters, and a transfer

// With their shadows, which stand behind them.
#[inline(always)]
pub fn set_registers(image: &mut [u8; IMAGE_BYTES], reu: Reu)
    ensures { image.new ≡ stored shadow_length (stored shadow_exp (stored shadow_c64 (sets image.old 0 reu.regs) reu.shadow_c64_addr) (reu.shadow_reu_addr % expansion_limit)) reu.shadow_len }
{
    pack::put(image, REGISTERS, reu.regs);
    pack::put(image, SHADOW_C64, reu.shadow_c64_addr.to_le_bytes());
    pack::put(image, SHADOW_EXPANSION, pack::three(reu.shadow_reu_addr));
    pack::put(image, SHADOW_LENGTH, reu.shadow_len.to_le_bytes());
}

#[inline(always)]
pub fn set_flags(image: &mut [u8; IMAGE_BYTES], reu: Reu)
    ensures { image.new ≡ stored flags image.old (flags_of (flag_bits reu)) }
{
    pack::put(image, FLAGS, [pack::flags(reu)]);
}

#[inline(always)]
pub fn set_granted(image: &mut [u8; IMAGE_BYTES], granted: u32)
    ensures { image.new ≡ stored granted_field image.old granted }
{
    pack::put(image, GRANTED_CYCLES, granted.to_le_bytes());
}

// The seven address and length registers: the image begins with the registers, so its bytes have their numbers.
#[inline(always)]
pub fn set_counters(image: &mut [u8; IMAGE_BYTES], d: DmaState)
    ensures { image.new ≡ counters image.old d.c64_addr.0 d.reu_addr.0 d.remaining }
{
    pack::put(image, C64_ADDRESS_LOW, d.c64_addr.0.to_le_bytes());
    pack::put(image, REU_ADDRESS_LOW, pack::three(d.reu_addr.0));
    pack::put(image, TRANSFER_LENGTH_LOW, pack::remaining(d.remaining));
}

#[inline(always)]
pub fn set_transfer(image: &mut [u8; IMAGE_BYTES], d: DmaState)
    ensures { image.new ≡ sets image.old (place_of kind) (laid transfer_part (transfer_numbers (Some (fitted d)))) }
{
    pack::put_transfer(image, d);
}

// ---- what an image that is not opened says of its controller

// The storage has the size that is set, and STATUS its mark. By cases: by `size_of` an idle cycle takes 15 instructions more.
#[inline(always)]
fn sized(image: &[u8; IMAGE_BYTES], storage: usize) -> bool
    ensures { result ≡ true → Sized image.now storage }
{
    let marked = image[REGISTERS + STATUS] & STATUS_VERSION != 0;
    match image[MORE_FLAGS] / 4 {
        0 => marked & (storage == 524_288),
        1 => marked & (storage == 262_144),
        2 => !marked & (storage == 131_072),
        _ => false,
    }
}

// The eight bytes from the length's shadow on, the lowest first: the shadow, flags, more flags, delay, transfer, type and phase.
#[inline(always)]
fn length_to_phase(image: &[u8; IMAGE_BYTES]) -> u64
    ensures { result ≡ from_le_bytes w64 (gets 16 8 image.now) }
{
    u64::from_le_bytes(bytes(image, SHADOW_LENGTH))
}

// Of these, which bits are looked at. At rest all must be 0: terminal write, the unused bits of more flags, and delay, transfer, type and phase whole.
const REST_BITS: u64 = 0xFFFF_FFFF_F040_0000;

// With a transfer: attached, recall repeat and terminal write; refresh; delay and transfer whole; a type below 4, a phase below 2. Two are not 0:
// attached, and the transfer that is there.
const MOVE_BITS: u64 = 0xFEFC_FFFF_F164_0000;

const MOVE_FOUND: u64 = 0x0000_0100_0004_0000;

// Accepted and lent what it needs, with no transfer, no terminal pair and no delay.
#[inline(always)]
#[tactic(auto, using(crate::proofs::InPlace::resting))]
pub fn rests(image: &[u8; IMAGE_BYTES], bus: usize, storage: usize) -> bool
    ensures { result ≡ true → Resting image.now bus storage }
{
    if length_to_phase(image) & REST_BITS != 0 {
        return false;
    }
    if u64::from_le_bytes(bytes(image, TRANSFER_C64)) != 0 {
        return false;
    }
    if image[OPTIONS] != 0 {
        return false;
    }
    if bus != BUS_BYTES {
        return false;
    }
    sized(image, storage)
}

// Accepted and lent what it needs, with a transfer that has no tail, and no refresh, recall repeat, terminal pair or delay.
#[inline(always)]
#[tactic(auto, using(crate::proofs::InPlace::moving))]
pub fn moves(image: &[u8; IMAGE_BYTES], bus: usize, storage: usize) -> bool
    ensures { result ≡ true → Moving image.now bus storage }
{
    if length_to_phase(image) & MOVE_BITS != MOVE_FOUND {
        return false;
    }
    // A tail is bit 5, and above it there is none.
    if image[OPTIONS] > 31 {
        return false;
    }
    // A write half is a swap's.
    if (image[PHASE] != 0) & (image[TYPE] != 2) {
        return false;
    }
    if bus != BUS_BYTES {
        return false;
    }
    sized(image, storage)
}
