// The controller that an image holds, field by field, and whether each field is in its range.
ghost use Rattle.std.specs.Prelude.{◌≡◌, ◌+◌, ◌≤◌, ◌&&◌, drop, take};
ghost use Rattle.controller.specs.Prelude.{bool_eq, eqb, not};
ghost use Rattle.controller.specs.Refusals.{well_formed};
ghost use Rattle.image.specs.Radix.{below, joined};
ghost use Rattle.image.specs.Fields.{lifted, radices, values};
ghost use Rattle.image.specs.Layout.{at, dma_in, fields, image_size, kind, phase_of, reu_at, size_of, transfer_fields, transfer_of};
ghost use Rattle.image.specs.Inner.{gets};
ghost use Rattle.image.specs.Open.{all_zero, image_ok};
ghost use Rattle.transfer.specs.Bytes.{bit};
ghost use Rattle.transfer.specs.Constants.{status, version};

use crate::layout;
use crate::layout::IMAGE_BYTES;
use controller::Reu;
use regs::{STATUS, STATUS_VERSION, length_of};
use transfer::{C64Address, DmaState, ExpansionAddress, SwapPhase, TransferType};

// ---- the bytes of a field from its place on, and a number of two or three, the low byte first. A place is where a field starts, and not how
// wide it is, so each of these asks that what it reads ends within the image. A type of places would be no plainer: it would carry the
// width with it, and the code has the width as N.
#[tactic(auto, using(crate::proofs::Gets::gets_slice))]
pub(crate) fn bytes<const N: usize>(image: &[u8; IMAGE_BYTES], place: usize) -> [u8; N]
    requires { place + N ≤ image_size }
    ensures { result ≡ gets place N image.now }
{
    let mut found = [0; N];
    found.copy_from_slice(&image[place..place + N]);
    found
}

pub(crate) fn word(image: &[u8; IMAGE_BYTES], place: usize) -> u16
    requires { place + 2 ≤ image_size }
    ensures { result ≡ joined (radices 2) (gets place 2 image.now) }
{
    u16::from_le_bytes(bytes(image, place))
}

// An address in the expansion has three bytes.
fn three(image: &[u8; IMAGE_BYTES], place: usize) -> u32
    requires { place + 3 ≤ image_size }
    ensures { result ≡ joined (radices 3) (gets place 3 image.now) }
{
    let [low, middle, high] = bytes::<3>(image, place);
    u32::from_le_bytes([low, middle, high, 0])
}

// A phase and a size are numbers here since a saved image holds bytes. A `match` is plainer than a table of sizes: the code would be cast to index
// it, and past its end there is a size too.
fn phase_of(n: u8) -> SwapPhase
    ensures { result ≡ phase_of n }
{
    if n == 0 {
        SwapPhase::ReadC64
    } else {
        SwapPhase::WriteC64
    }
}

fn size_of(code: u8) -> u32
    ensures { result ≡ size_of code }
{
    match code {
        0 => 524_288,
        1 => 262_144,
        _ => 131_072,
    }
}

// ---- the controller. Each flag stands beside its bit, as in `pack`
#[tactic(auto, using(crate::proofs::ByBytes::transfer_listed))]
#[inline(always)]
pub fn transfer_at(image: &[u8; IMAGE_BYTES]) -> DmaState
    ensures { result ≡ transfer_of (lifted fields image.now) }
{
    let options = image[layout::OPTIONS];
    let kind = TransferType::from_command(image[layout::TYPE]);
    let phase = phase_of(image[layout::PHASE]);
    let c64 = C64Address(word(image, layout::TRANSFER_C64));
    let exp = ExpansionAddress(three(image, layout::TRANSFER_EXPANSION));
    let left = length_of(word(image, layout::REMAINING));
    DmaState {
        transfer_type: kind,
        swap_phase: phase,
        c64_addr: c64,
        reu_addr: exp,
        remaining: left,
        fix_c64: options & 0x01 != 0,
        fix_reu: options & 0x02 != 0,
        autoload: options & 0x04 != 0,
        latch: image[layout::LATCH],
        first_byte: options & 0x08 != 0,
        read_clock_odd: options & 0x10 != 0,
        verify_tail: options & 0x20 != 0,
    }
}

#[inline(always)]
fn dma_at(image: &[u8; IMAGE_BYTES]) -> Option<DmaState>
    ensures { result ≡ dma_in (lifted fields image.now) }
{
    if image[layout::TRANSFER] == 0 {
        None
    } else {
        Some(transfer_at(image))
    }
}

#[inline(always)]
pub fn controller_at(image: &[u8; IMAGE_BYTES]) -> Reu
    ensures { result ≡ reu_at image.now }
{
    let flags = image[layout::FLAGS];
    let more = image[layout::MORE_FLAGS];
    Reu {
        regs: bytes(image, layout::REGISTERS),
        shadow_c64_addr: word(image, layout::SHADOW_C64),
        shadow_reu_addr: three(image, layout::SHADOW_EXPANSION),
        shadow_len: word(image, layout::SHADOW_LENGTH),
        enabled: flags & 0x01 != 0,
        irq_pending: flags & 0x02 != 0,
        attached: flags & 0x04 != 0,
        waiting_ff00: flags & 0x08 != 0,
        ba_was_high: flags & 0x10 != 0,
        recall_repeat: flags & 0x20 != 0,
        terminal_swap_write: flags & 0x40 != 0,
        late_ba_fall: flags & 0x80 != 0,
        swap_refresh: more & 0x01 != 0,
        swap_release_pending: more & 0x02 != 0,
        swap_read_delay: image[layout::DELAY],
        dma: dma_at(image),
        granted_cycles: u32::from_le_bytes(bytes(image, layout::GRANTED_CYCLES)),
        size: size_of(more / 4),
    }
}

// ---- the ranges

// The fields whose bytes could say more values than they have.
fn ranges_ok(image: &[u8; IMAGE_BYTES]) -> bool
    ensures { result ≡ below (values fields) (lifted fields image.now) }
{
    (image[layout::MORE_FLAGS] < 12)
        & (image[layout::DELAY] < 3)
        & (image[layout::TRANSFER] < 2)
        & (image[layout::TYPE] < 4)
        & (image[layout::PHASE] < 2)
        & (image[layout::OPTIONS] < 64)
}

// There is no transfer, and its fields are 0: a number is where each of its bytes is. The twelve bytes are looked at as eight and eight.
fn idle_ok(image: &[u8; IMAGE_BYTES]) -> bool
    ensures { result ≡ eqb (at image.now 21) 0 && all_zero (take transfer_fields (drop kind (lifted fields image.now))) }
{
    let front = u64::from_le_bytes(bytes(image, layout::TRANSFER));
    let back = u64::from_le_bytes(bytes(image, layout::TRANSFER_C64 + 1));
    (front == 0) & (back == 0)
}

// Of more flags bit 3: the smallest size is coded by 8 to 11 there, and the others by less.
const SMALLEST: u8 = 0x08;

// STATUS has the mark of a size that is coded: its bit 4 is 1 where bit 3 of more flags is 0. One bit is compared with twice the other: by two truth
// values it takes three instructions more.
#[tactic(auto, using(crate::proofs::Accepted::one_of_two))]
fn marked(image: &[u8; IMAGE_BYTES]) -> bool
    ensures { result ≡ bool_eq (bit (at image.now status) version) (not (bit (at image.now 19) 3)) }
{
    image[layout::REGISTERS + STATUS] & STATUS_VERSION != 2 * (image[layout::MORE_FLAGS] & SMALLEST)
}

// The ranges and the controller's own tests, of an image with a transfer. It stays a function of its own: within the test of an image it would take
// registers that an image without one would have to save.
#[inline(never)]
fn running_ok(image: &[u8; IMAGE_BYTES]) -> bool
    ensures { result ≡ below (values fields) (lifted fields image.now) && well_formed (reu_at image.now) }
{
    ranges_ok(image) && controller_at(image).well_formed()
}

// Whether an image is accepted: the test of its bytes for opening it, and for its registers where it stands. Without a transfer few are left to look
// at. The two tests of a cycle look at fewer, from which this follows (`in_place::rests`, `moves`).
#[inline(always)]
pub fn accepted(image: &[u8; IMAGE_BYTES]) -> bool
    ensures { result ≡ image_ok image.now }
{
    if idle_ok(image) {
        let ranges = (image[layout::MORE_FLAGS] < 12) & (image[layout::DELAY] < 3);
        return ranges & marked(image);
    }
    if image[layout::TRANSFER] == 0 {
        return false;
    }
    running_ok(image)
}
