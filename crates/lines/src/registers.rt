// What is wrong with a line that writes or reads registers.
ghost use Rattle.text.specs.Faults.{Says};
ghost use Rattle.lines.specs.Registers.{place_fault, read_fault, write_fault};

use crate::memory::{LAST_ADDRESS, store_fault};
use crate::texts::refuse;
use text::faults::number;
use text::line::Line;
use text::words::{word, word_count};

// A register's address.
#[tactic(auto, unfolding(crate::specs::Registers::place_fault))]
fn place_fault(word: &[u8]) -> Result<(), Line>
    ensures { Says result (place_fault word.now) }
{
    let place = number(word, LAST_ADDRESS)?;
    if place / 256 == 0xDF {
        return Ok(());
    }
    refuse(b"no register at %: they are at DF00 to DF0A", word)
}

#[tactic(auto, unfolding(crate::specs::Registers::write_fault))]
pub fn write_fault(line: &[u8]) -> Result<(), Line>
    ensures { Says result (write_fault line.now) }
{
    store_fault(line, LAST_ADDRESS)?;
    place_fault(word(line, 1))
}

#[tactic(auto, unfolding(crate::specs::Registers::read_fault))]
pub fn read_fault(line: &[u8]) -> Result<(), Line>
    ensures { Says result (read_fault line.now) }
{
    if word_count(line) == 2 {
        return place_fault(word(line, 1));
    }
    refuse(b"usage: % ADDR", word(line, 0))
}
