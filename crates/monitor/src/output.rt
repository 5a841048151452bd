// Lines to standard output.
use console::step::store_line;
use lines::beside::{Between, beside, mark};
use lines::memory::{Memory, address_of, bytes_line, end_of};
use pane::rows::{ROWS, row};
use regs::Stores;
use std::io;
use text::line::Line;

pub(crate) fn tell(rt: &impl Print, text: &[u8]) -> io::Result<()> {
    rt.write_all(text)?;
    rt.write_all(b"\n")
}

pub(crate) fn say(rt: &impl Print, line: &Line) -> io::Result<()> {
    tell(rt, line.as_bytes())
}

// The registers that were stored, one line each, in their order.
pub(crate) fn say_stores(rt: &impl Print, stores: Stores) -> io::Result<()> {
    for one in stores.iter().flatten() {
        say(rt, &store_line(*one))?;
    }
    Ok(())
}

// Where rows are shown, and whether in colour.
#[derive(Drop)]
pub(crate) struct Screen<'a, P> {
    pub rt: &'a P,
    pub colour: bool,
}

impl<P: Print> Screen<'_, P> {
    // A row of the pane: bold, where it is marked and colour was asked for.
    fn say_row(&self, row: &Line) -> io::Result<()> {
        let marked = matches!(row.as_bytes(), [b'*', ..]);
        if !(self.colour & marked) {
            return say(self.rt, row);
        }
        self.rt.write_all(b"\x1b[1m")?;
        say(self.rt, row)?;
        self.rt.write_all(b"\x1b[0m")
    }

    // The rows of a pane, each with another pane's beside it, where they are to be shown; answers whether any two differ. A row is made by its
    // number, so the loop is over numbers.
    pub(crate) fn show_beside(
        &self,
        image: &[u8],
        between: Between,
        other: &[u8],
    ) -> io::Result<bool> {
        let mut differ = false;
        for i in 0..ROWS {
            let live = row(image, i);
            let there = row(other, i);
            if let Some(shown) = beside(&live, between, &there) {
                self.say_row(&shown)?;
            }
            differ |= live.as_bytes() != there.as_bytes();
        }
        Ok(differ)
    }
}

// The rows that there are, by their numbers too.
pub(crate) fn show_pane(rt: &impl Print, image: &[u8]) -> io::Result<()> {
    for i in 0..ROWS {
        let live = row(image, i);
        if !live.is_empty() {
            say(rt, &mark(b' ', &live))?;
        }
    }
    Ok(())
}

// Bytes of the bus or of the storage, sixteen to a line, by their addresses.
pub(crate) fn show_bytes(
    rt: &impl Print,
    line: &[u8],
    kind: Memory,
    memory: &[u8],
    most: u32,
) -> io::Result<()> {
    let end = end_of(line, most);
    for at in (address_of(line)..=end).step_by(16) {
        say(rt, &bytes_line(kind, memory, at, end))?;
    }
    Ok(())
}
