// Bytes of the bus and of the storage, and the words of a line as bytes. Addresses are cast where they index: `usize` has no `From` of `u32`,
// and nothing is lost.
ghost use Rattle.std.specs.Prelude.{◌≡◌, ◌≤◌, ℕ, List, length, set as list_set, replicate};
ghost use Rattle.text.specs.Faults.{Says};
ghost use Rattle.text.specs.Shown.{text_of};
ghost use Rattle.lines.specs.Memory.{address, address_text, bytes_line, bytes_of, cleared_from, each, end_of, range_fault, show_fault, store_fault, stored, typed};

use crate::texts::refuse;
use text::bytes::byte;
use text::faults::{number, numbers, value};
use text::line::Line;
use text::words::{word, word_count};

// The last address of the bus.
pub const LAST_ADDRESS: u32 = 65535;

const PER_LINE: usize = 16;
// How many more bytes are shown where no end is given.
const SHOWN: u32 = 63;

// Which of the two memories bytes are in.
#[derive(Clone, Copy, PartialEq, Eq, Debug)]
pub enum Memory {
    Bus,
    Storage,
}

// ---- a new machine's

// Its bus or its storage: an array, since there is no heap.
pub fn empty<const N: usize>() -> [u8; N]
    ensures value { result ≡ replicate N 0 }
    ensures long { N ≡ length result }
{
    [0; N]
}

// Bytes from a place on become 0: behind a storage that is smaller than what it lies in there are no others.
pub fn clear_from(memory: &mut [u8], from: usize)
    ensures { memory.new ≡ cleared_from from memory.old }
{
    if from < memory.len() {
        transfer::clear(&mut memory[from..]);
    }
}

// ---- bytes and words

// The address that the second word of a line is.
pub fn address_of(line: &[u8]) -> u32
    ensures value { result ≡ address line.now }
    ensures upper_bound { result ≤ 16777215 }
{
    value(word(line, 1))
}

// The byte that a word is: the low one of its number.
pub fn byte_of(line: &[u8], i: usize) -> u8
    ensures { result ≡ typed line.now i }
{
    value(word(line, i)).to_le_bytes()[0]
}

// ---- > and >s

// Where the bytes of a line go, one after another.
pub trait Target {
    // What lies there after a byte at an address.
    ghost after: { ℕ → ℕ → List ℕ → List ℕ };

    fn put(bytes: &mut [u8], at: usize, value: u8)
        ensures { bytes.new ≡ after at value bytes.old };
}

// Each byte at its own address, and none past the end.
struct Cells;

impl Target for Cells {
    ghost after = { λ at value bytes. list_set bytes at value };

    // A test and an index. Tried as `get_mut`: the proof did not close, since what a slice holds after a write through it is in no contract of
    // the library.
    fn put(bytes: &mut [u8], at: usize, value: u8) {
        if at < bytes.len() {
            bytes[at] = value;
        }
    }
}

// The third word's byte goes to the address, the fourth's to the next, and so on. By a word's number: see words.rt of `text`.
pub fn put_each<T: Target>(line: &[u8], bytes: &mut [u8])
    ensures { bytes.new ≡ each T.after (address line.now) (bytes_of line.now) bytes.old }
{
    let from = address_of(line) as usize;
    for i in 2..word_count(line) {
        T::put(bytes, from + (i - 2), byte_of(line, i));
    }
}

// Into a memory.
pub fn store(line: &[u8], memory: &mut [u8])
    ensures { memory.new ≡ stored line.now memory.old }
{
    put_each::<Cells>(line, memory);
}

// What is wrong with an address and bytes after it.
#[tactic(auto, unfolding(crate::specs::Memory::store_fault))]
pub fn store_fault(line: &[u8], most: u32) -> Result<(), Line>
    ensures { Says result (store_fault line.now most) }
{
    let words = word_count(line);
    if words < 3 {
        return refuse(b"usage: % ADDR BYTE..", word(line, 0));
    }
    let from = number(word(line, 1), most)?;
    if (most as usize) < (from as usize) + (words - 3) {
        return refuse(b"% runs past the last address", word(line, 0));
    }
    numbers(line, 2, 255)
}

// ---- m and ms

// The address as the command that puts bytes there has it.
fn address_text(kind: Memory, address: u32) -> Line
    ensures { text_of result ≡ address_text kind address }
{
    match kind {
        Memory::Bus => Line::from(b"> ").hex(4, address),
        Memory::Storage => Line::from(b">s ").hex(5, address),
    }
}

// A line of bytes, from an address on and not past `end`. By addresses and not over the memory's bytes: past its end 0 is shown.
pub fn bytes_line(kind: Memory, memory: &[u8], from: u32, end: u32) -> Line
    ensures { text_of result ≡ bytes_line kind memory.now from end }
{
    let start = from as usize;
    let stop = (start + PER_LINE).min(end as usize + 1);
    let mut line = address_text(kind, from);
    for at in start..stop {
        line.push(b' ');
        line.append_hex(2, u32::from(byte(memory, at)));
    }
    line
}

// The last address to show.
#[tactic(auto, unfolding(crate::specs::Memory::end_of))]
pub fn end_of(line: &[u8], most: u32) -> u32
    ensures { result ≡ end_of line.now most }
{
    if word_count(line) == 3 {
        return value(word(line, 2));
    }
    most.min(address_of(line) + SHOWN)
}

#[tactic(auto, unfolding(crate::specs::Memory::range_fault))]
fn range_fault(line: &[u8], most: u32) -> Result<(), Line>
    ensures { Says result (range_fault line.now most) }
{
    numbers(line, 1, most)?;
    if end_of(line, most) < address_of(line) {
        return refuse(b"%: END is below ADDR", word(line, 0));
    }
    Ok(())
}

// What is wrong with an address and an end that may be left out.
#[tactic(auto, unfolding(crate::specs::Memory::show_fault))]
pub fn show_fault(line: &[u8], most: u32) -> Result<(), Line>
    ensures { Says result (show_fault line.now most) }
{
    match word_count(line) {
        2 | 3 => range_fault(line, most),
        _ => refuse(b"usage: % ADDR [END]", word(line, 0)),
    }
}
