// The register pane: a row for each register and for what else a controller holds.
// Every number is looked up in the image at the moment that the row is made. The image stays a slice: a struct around it would hold the same
// slice and find the same places in it.
ghost use Rattle.std.specs.Prelude.{◌≡◌, [], ◌%◌, ◌<◌, ◌≤◌, cond, eqb, min, length, take};
ghost use Rattle.image.specs.Layout.{image_size, kind, place_of, transfer_exp};
ghost use Rattle.pane.specs.Answers.{refused_as};
ghost use Rattle.pane.specs.Rows.{copy_of, flags_row, granted_in, granted_row, held_row, long_at, reads, refused_row, remaining_in, register_name, register_row, row_of, running_row, size_in, storage_row, transfer_row, type_name, word_at};
ghost use Rattle.pane.specs.Rows.{held as rows_held, spelled as rows_spelled};
ghost use Rattle.transfer.specs.Dma.{type_number};
ghost use Rattle.text.specs.Bytes.{byte_at};
ghost use Rattle.text.specs.Shown.{◌⊕◌, ascii, bits_of, hex_of, text_of};

use crate::answers::{Refused, answer};
use image::layout;
use regs::length_of;
use text::bytes::byte;
use text::line::Line;
use transfer::TransferType;

// A row is its number, since whoever shows a pane goes through them in order.
pub const ROWS: usize = 24;

// The registers that a row spells out, the low byte of a pair.
const STATUS: usize = layout::REGISTERS;

const COMMAND: usize = layout::REGISTERS + 1;

const C64_ADDRESS: usize = layout::REGISTERS + 2;

const EXPANSION_ADDRESS: usize = layout::REGISTERS + 4;

const LENGTH: usize = layout::REGISTERS + 7;

const INTERRUPT_MASK: usize = layout::REGISTERS + 9;

const ADDRESS_CONTROL: usize = layout::REGISTERS + 10;

// Numbers of two, three and four bytes: each is one `from_le_bytes`, of its own type, and as one function of the width they would be longer.
// That a place is inside an image is asked, since `i + 1` may not pass the largest number; every caller gives a place of `layout`.

// Two bytes, low byte first.
fn word(s: &[u8], i: usize) -> u16
    requires { i < image_size }
    ensures { result ≡ word_at s.now i }
{
    u16::from_le_bytes([byte(s, i), byte(s, i + 1)])
}

// Three bytes, low byte first.
fn long(s: &[u8], i: usize) -> u32
    requires { i < image_size }
    ensures { result ≡ long_at s.now i }
{
    u32::from_le_bytes([byte(s, i), byte(s, i + 1), byte(s, i + 2), 0])
}

// The expansion address of the running transfer.
pub fn transfer_expansion(image: &[u8]) -> u32
    ensures { result ≡ long_at image.now (place_of transfer_exp) }
{
    long(image, layout::TRANSFER_EXPANSION)
}

// A copy of what is no image by its length is refused, as that is.
pub fn copied(image: &[u8]) -> [u8; layout::IMAGE_BYTES]
    ensures value { result ≡ copy_of image.now }
    ensures image_size_value { image_size ≡ length result }
{
    image.try_into().unwrap_or([255; layout::IMAGE_BYTES])
}

// What a register holds. Each 0 stands for what no row shows: of a refused image no register is shown, and what is accepted has 8 bits.
fn held(image: &[u8], register: u8) -> u8
    ensures { result ≡ rows_held image.now register }
{
    let value = answer(reu::reu_debug_register(image, u64::from(register))).unwrap_or(0);
    u8::try_from(value).unwrap_or(0)
}

// What a read of the register would give, found on a copy: the machine is not touched. The zeros are as in `held`.
fn read_gives(image: &[u8], register: u8) -> u8
    ensures { result ≡ reads image.now register }
{
    let mut copy = copied(image);
    let value = answer(reu::reu_read(&mut copy, u16::from(register))).unwrap_or(0);
    u8::try_from(value).unwrap_or(0)
}

// ---- the registers

// A register is its number, as in the calls, in an image and in the definitions: an enum of eleven would be turned into it at each use.
fn register_name(register: u8) -> &'static [u8]
    ensures { result.now ≡ register_name register }
{
    match register {
        0 => b" STATUS  ",
        1 => b" COMMAND ",
        2 => b" C64 LO  ",
        3 => b" C64 HI  ",
        4 => b" EXP LO  ",
        5 => b" EXP HI  ",
        6 => b" BANK    ",
        7 => b" LEN LO  ",
        8 => b" LEN HI  ",
        9 => b" MASK    ",
        10 => b" CONTROL ",
        _ => b"",
    }
}

// A register by its address and its name.
fn name(register: u8) -> Line
    ensures { text_of result ≡ [] ⊕ ascii "DF0" ⊕ hex_of 1 register ⊕ register_name register }
{
    Line::from(b"DF0")
        .hex(1, u32::from(register))
        .text(register_name(register))
}

fn type_name(kind: TransferType) -> &'static [u8]
    ensures { result.now ≡ type_name (type_number kind) }
{
    match kind {
        TransferType::Store => b"store",
        TransferType::Recall => b"recall",
        TransferType::Swap => b"swap",
        TransferType::Verify => b"verify",
    }
}

// The visible counter of a pair, and its shadow.
fn counter(line: Line, digits: u8, visible: u32, shadow: u32) -> Line
    ensures { text_of result ≡ text_of line ⊕ hex_of digits visible ⊕ ascii " shadow " ⊕ hex_of digits shadow }
{
    line.hex(digits, visible)
        .text(b" shadow ")
        .hex(digits, shadow)
}

#[tactic(auto, unfolding(crate::specs::Rows::spelled))]
fn spelled(line: Line, image: &[u8], register: u8) -> Line
    ensures { text_of result ≡ rows_spelled image.now register (text_of line) }
{
    match register {
        0 => line.bits(b" irq=7 end=6 err=5 ver=4", byte(image, STATUS)),
        1 => line
            .bits(b" exec=7 load=5 now=4 ", byte(image, COMMAND))
            .text(type_name(TransferType::from_command(byte(image, COMMAND)))),
        2 => counter(
            line.text(b" c64 "),
            4,
            u32::from(word(image, C64_ADDRESS)),
            u32::from(word(image, layout::SHADOW_C64)),
        ),
        4 => counter(
            line.text(b" exp "),
            6,
            long(image, EXPANSION_ADDRESS),
            long(image, layout::SHADOW_EXPANSION),
        ),
        7 => counter(
            line.text(b" len "),
            4,
            u32::from(word(image, LENGTH)),
            u32::from(word(image, layout::SHADOW_LENGTH)),
        ),
        9 => line.bits(b" all=7 end=6 err=5", byte(image, INTERRUPT_MASK)),
        10 => line.bits(b" fixc64=7 fixexp=6", byte(image, ADDRESS_CONTROL)),
        _ => line,
    }
}

fn register_row(image: &[u8], register: u8) -> Line
    ensures { text_of result ≡ register_row image.now register }
{
    let value = held(image, register);
    let read = read_gives(image, register);
    let line = spelled(name(register).hex(2, u32::from(value)), image, register);
    if read == value {
        return line;
    }
    line.text(b" reads ").hex(2, u32::from(read))
}

// ---- beside the registers

// The image's flags, more flags and delay.
#[tactic(auto, unfolding(crate::specs::Rows::flags_row))]
fn flags_row(image: &[u8], row: usize) -> Line
    ensures { text_of result ≡ flags_row image.now row }
{
    let line = Line::new();
    let flags = byte(image, layout::FLAGS);
    match row {
        11 => line.bits(b"interrupt    level=1", flags),
        12 => line.bits(b"machine      enabled=0 attached=2 armed=3", flags),
        13 => line.bits(b"BA history   washigh=4 latefall=7", flags),
        14 => line.bits(b"BA rules     repeat=5 terminal=6", flags),
        15 => line.bits(
            b"swap rules   refresh=0 release=1",
            byte(image, layout::MORE_FLAGS),
        ),
        _ => line
            .text(b"delay        ")
            .hex(1, u32::from(byte(image, layout::DELAY))),
    }
}

// ---- the size of the storage

// By the code that stands above the two bits of the swap rules. `image` has the same three arms for what it opens, in a function of its own: a public
// one for three arms would be no plainer.
#[tactic(auto, unfolding(crate::specs::Rows::size_in))]
pub fn size_in(image: &[u8]) -> u32
    ensures value { result ≡ size_in image.now }
    ensures result_nonzero { 0 < result }
    ensures upper_bound { result ≤ 524288 }
{
    let code = byte(image, layout::MORE_FLAGS) / 4;
    match code {
        0 => 524288,
        1 => 262144,
        _ => 131072,
    }
}

// How many of some bytes are the storage that the image sets: the first of them, and never more than there are. The last two facts are
// those that `&bytes[..n]` asks. `as usize` widens: std has no `From<u32>` for it.
pub fn lent(image: &[u8], bytes: &[u8]) -> usize
    ensures value { result ≡ min (size_in image.now) (length bytes.now) }
    ensures upper_bound { result ≤ length bytes.now }
    ensures taken { result ≡ length (take result bytes.now) }
{
    bytes.len().min(size_in(image) as usize)
}

#[tactic(auto, unfolding(crate::specs::Rows::storage_row))]
fn storage_row(image: &[u8]) -> Line
    ensures { text_of result ≡ storage_row image.now }
{
    Line::from(b"storage      ")
        .digits(u64::from(size_in(image) / 1024))
        .text(b" KiB")
}

// ---- the count of granted cycles

// Four bytes, low byte first.
fn granted(image: &[u8]) -> u32
    ensures { result ≡ granted_in image.now }
{
    let at = layout::GRANTED_CYCLES;
    u32::from_le_bytes([
        byte(image, at),
        byte(image, at + 1),
        byte(image, at + 2),
        byte(image, at + 3),
    ])
}

// The number is held at its top: there it says that there may have been more.
#[tactic(auto, unfolding(crate::specs::Rows::granted_row))]
fn granted_row(image: &[u8]) -> Line
    ensures { text_of result ≡ granted_row image.now }
{
    let count = granted(image);
    let line = Line::from(b"granted      ")
        .decimal(u64::from(count))
        .text(b" cycles");
    if count == u32::MAX {
        return line.text(b" or more");
    }
    line
}

// ---- the transfer

// An image with a number past the last type's is refused: it is taken as the last.
fn running_type(image: &[u8]) -> TransferType
    ensures { type_name (type_number result) ≡ type_name (byte_at image.now (place_of kind)) }
{
    TransferType::from_command(byte(image, layout::TYPE).min(3))
}

#[tactic(auto, unfolding(crate::specs::Rows::transfer_row))]
fn transfer_row(image: &[u8]) -> Line
    ensures { text_of result ≡ transfer_row image.now }
{
    let line = Line::from(b"transfer     ");
    if byte(image, layout::TRANSFER) == 0 {
        return line.text(b"none");
    }
    let typed = line.text(type_name(running_type(image)));
    if byte(image, layout::PHASE) == 0 {
        return typed.text(b", read phase");
    }
    typed.text(b", write phase")
}

// Two bytes, as those of a length.
fn remaining(image: &[u8]) -> u32
    ensures { result ≡ remaining_in image.now }
{
    length_of(word(image, layout::REMAINING))
}

fn place_row(c64: u32, expansion: u32, left: u32) -> Line
    ensures { text_of result ≡ [] ⊕ ascii "  at         c64 " ⊕ hex_of 4 c64 ⊕ ascii " exp " ⊕ hex_of 6 expansion ⊕ ascii " left " ⊕ hex_of 5 left }
{
    Line::from(b"  at         c64 ")
        .hex(4, c64)
        .text(b" exp ")
        .hex(6, expansion)
        .text(b" left ")
        .hex(5, left)
}

// Nothing where there is no transfer.
#[tactic(auto, unfolding(crate::specs::Rows::running_row))]
fn running_row(image: &[u8], row: usize) -> Line
    ensures { text_of result ≡ running_row image.now row }
{
    let line = Line::new();
    if byte(image, layout::TRANSFER) == 0 {
        return line;
    }
    match row {
        20 => place_row(
            u32::from(word(image, layout::TRANSFER_C64)),
            long(image, layout::TRANSFER_EXPANSION),
            remaining(image),
        ),
        21 => line
            .text(b"  latch      ")
            .hex(2, u32::from(byte(image, layout::LATCH)))
            .bits(b" first=3 odd=4 tail=5", byte(image, layout::OPTIONS)),
        22 => line.bits(
            b"  options    fixc64=0 fixexp=1 load=2",
            byte(image, layout::OPTIONS),
        ),
        _ => line,
    }
}

// ---- any of them

// What the controller holds; rows 20 on are empty where no command runs. `row as u8` is at most 10.
#[tactic(auto, unfolding(crate::specs::Rows::held_row))]
fn held_row(image: &[u8], row: usize) -> Line
    ensures { text_of result ≡ held_row image.now row }
{
    match row {
        0..=10 => register_row(image, row as u8),
        11..=16 => flags_row(image, row),
        17 => storage_row(image),
        18 => granted_row(image),
        19 => transfer_row(image),
        _ => running_row(image, row),
    }
}

// That an image is refused is said in a row of its own, so that beside an accepted one it stands for none of its rows.
fn refused_row(refused: Refused, row: usize) -> Line
    ensures { text_of result ≡ cond (eqb row 23) ([] ⊕ ascii "image        " ⊕ refused_as refused.number ⊕ ascii ": no controller") [] }
{
    let line = Line::new();
    if row == 23 {
        return refused
            .shown(line.text(b"image        "))
            .text(b": no controller");
    }
    line
}

// A row of the pane. Every call refuses an image alike: one is asked, and of a refused image no byte is shown. A row that a machine has not
// is a line of no bytes, and no `None`: two panes compare it, mark it and set it beside another as they do any row.
pub fn row(image: &[u8], row: usize) -> Line
    ensures { text_of result ≡ row_of image.now row }
{
    match answer(reu::reu_dma_active(image)) {
        Ok(_) => held_row(image, row),
        Err(refused) => refused_row(refused, row),
    }
}
