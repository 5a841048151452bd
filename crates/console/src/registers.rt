// Register writes and reads as the processor makes them. A register's address is the low 16 bits: `as u16` is of a number that has no others.
ghost use Rattle.std.specs.Prelude.{◌≡◌, ◌%◌};
ghost use Rattle.reu.specs.Exports.{reu_write};
ghost use Rattle.text.specs.Shown.{text_of};
ghost use Rattle.console.specs.Registers.{after_read, read_text, warning_of, written};
ghost use Rattle.console.specs.Said.{said_of};

use lines::memory::{Target, address_of, put_each};
use pane::answers::answer;
use text::line::Line;
use text::words::word;

// The registers, which bytes go to one after another.
struct Registers;

impl Target for Registers {
    ghost after = { λ at value image. (reu_write image (at % 65536) value).1 };

    fn put(image: &mut [u8], at: usize, value: u8) {
        reu::reu_write(image, (at % 65536) as u16, value);
    }
}

pub fn write(line: &[u8], image: &mut [u8])
    ensures { image.new ≡ written line.now image.old }
{
    put_each::<Registers>(line, image);
}

// What a read gives, as a line, or that it was refused.
#[tactic(auto, unfolding(crate::specs::Registers::read_text))]
pub fn read(line: &[u8], image: &mut [u8]) -> Line
    ensures result_value { text_of result ≡ read_text line.now image.old }
    ensures image_after { image.new ≡ after_read line.now image.old }
{
    let register = (address_of(line) % 65536) as u16;
    match answer(reu::reu_read(image, register)) {
        Ok(value) => Line::new()
            .fill(b"% reads ", word(line, 1))
            .hex(2, value % 256),
        Err(refused) => refused.shown(Line::new().fill(b"% is not read: ", word(line, 1))),
    }
}

// Without storage no command can run, which a newcomer may not expect; and a refused image takes no write.
#[tactic(auto, unfolding(crate::specs::Registers::warning_of))]
pub fn warning(image: &[u8]) -> Option<Line>
    ensures { said_of result ≡ warning_of image.now }
{
    let line = Line::new();
    match answer(reu::reu_storage_present(image)) {
        Ok(0) => Some(line.text(b"(no storage is attached, so no command runs: enable first)")),
        Ok(_) => None,
        Err(refused) => Some(
            refused
                .shown(line.text(b"(nothing is written: the image is "))
                .put(b')'),
        ),
    }
}
