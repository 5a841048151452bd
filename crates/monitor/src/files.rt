// Saved machines: the image in a file, bus and storage in two files beside it. What cannot be done is the error, as a line that says why.
ghost use Rattle.std.specs.Prelude.{◌≤◌, length};

use crate::machine::{BUS_BYTES, LARGEST_STORAGE, Machine};
use image::layout::IMAGE_BYTES;
use lines::files::{Length, Part, copy, length_fault, part_name};
use lines::memory::empty;
use pane::answers::answer;
use std::fs::OpenFile;
use std::io::{ErrorKind, Read, Write};
use std::rt::Files;
use std::{fs, io, str};
use text::line::Line;

// ---- a file by its name: no name is opened whose bytes are not UTF-8

fn path(name: &[u8]) -> io::Result<&str> {
    str::from_utf8(name).map_err(|_| ErrorKind::InvalidInput.into())
}

pub(crate) fn open_read<R: Files>(rt: &R, name: &[u8]) -> io::Result<R::File> {
    fs::open(rt, path(name)?)
}

// ---- saving

// What was written has reached the file: that a disk on another machine is full may be said no earlier than here, and std says
// nothing of it when the file is closed. A pipe or a terminal cannot be asked, and has what was written.
fn keep(file: &impl OpenFile) -> io::Result<()> {
    match file.sync_all() {
        Err(error) if error.kind() == ErrorKind::InvalidInput => Ok(()),
        kept => kept,
    }
}

// The file is made, or emptied if it is there.
fn write_file(rt: &impl Files, name: &[u8], bytes: &[u8]) -> io::Result<()> {
    let mut file = fs::create(rt, path(name)?)?;
    let written = file.write_all(bytes);
    let kept = keep(&file); // of a part that was written in part, too
    written?;
    kept
}

fn save_part(rt: &impl Files, name: &[u8], part: Part, bytes: &[u8]) -> Result<(), Line> {
    let file = part_name(name, part);
    let fault = |_| Line::new().fill(b"cannot write %", file.as_bytes());
    write_file(rt, file.as_bytes(), bytes).map_err(fault)
}

// The first part that cannot be written is the last that is tried.
pub(crate) fn save(rt: &impl Files, name: &[u8], machine: &Machine) -> Result<(), Line> {
    save_part(rt, name, Part::Image, &machine.image)?;
    save_part(rt, name, Part::Bus, &machine.bus)?;
    save_part(rt, name, Part::Storage, machine.lent())
}

// ---- opening

// Reads until the bytes are full, the file ends or a read fails; how many it read. A `while let`: how many bytes a read gives, only the read says.
fn read_full(file: &mut impl Read, bytes: &mut [u8]) -> usize
    ensures { result ≤ length bytes.new }
{
    let mut done = 0;
    while let Ok(count @ 1..) = file.read(&mut bytes[done..]) {
        done += count;
    }
    done
}

fn is_at_end(file: &mut impl Read) -> io::Result<bool> {
    let mut byte = [0u8; 1];
    Ok(file.read(&mut byte)? == 0)
}

// Fills the bytes from a file; how long it is. One byte too many is counted, so that of an image that an earlier release saved the
// length is said; of more it is only said that the file goes on. A file that goes on before the bytes are full could not be read.
fn read_length(file: &mut impl Read, bytes: &mut [u8]) -> io::Result<Length> {
    let count = read_full(file, bytes);
    if is_at_end(file)? {
        return Ok(Length::Exactly(count));
    }
    if count < bytes.len() {
        return Err(ErrorKind::Other.into());
    }
    if is_at_end(file)? {
        return Ok(Length::Exactly(count + 1));
    }
    Ok(Length::MoreThan(count + 1))
}

// Reads a part into bytes of its length.
fn read_part(rt: &impl Files, name: &[u8], part: Part, bytes: &mut [u8]) -> Result<(), Line> {
    let file = part_name(name, part);
    let fault = |template: &[u8]| Line::new().fill(template, file.as_bytes());
    let Ok(mut opened) = open_read(rt, file.as_bytes()) else {
        return Err(fault(b"cannot read %: no such file, or it may not be read"));
    };
    let needed = bytes.len();
    match read_length(&mut opened, bytes) {
        Ok(Length::Exactly(count)) if count == needed => Ok(()),
        Ok(length) => Err(length_fault(name, part, length, needed)),
        Err(_) => Err(fault(b"cannot read %: it is no file, or reading it failed")),
    }
}

// The image alone, tested as every call tests it.
pub(crate) fn read_image(rt: &impl Files, name: &[u8]) -> Result<[u8; IMAGE_BYTES], Line> {
    let mut image = empty::<IMAGE_BYTES>();
    read_part(rt, name, Part::Image, &mut image)?;
    let told = b"refused: % is no saved machine: a field is out of its range (refusal 2)";
    answer(reu::reu_dma_active(&image)).map_err(|_| Line::new().fill(told, name))?;
    Ok(image)
}

// All three parts. The image says how long the storage is, and behind it there are zeros. The machine is changed once all three are there.
pub(crate) fn open(rt: &impl Files, name: &[u8], machine: &mut Machine) -> Result<(), Line> {
    let mut saved = Machine {
        image: read_image(rt, name)?,
        bus: empty::<BUS_BYTES>(),
        storage: empty::<LARGEST_STORAGE>(),
    };
    read_part(rt, name, Part::Bus, &mut saved.bus)?;
    read_part(rt, name, Part::Storage, saved.lent_mut())?;
    copy(&saved.image, &mut machine.image);
    copy(&saved.bus, &mut machine.bus);
    copy(&saved.storage, &mut machine.storage);
    Ok(())
}
