// What an exported call answers: a value, or that it was refused, and by which number.
ghost use Rattle.std.specs.Prelude.{◌≡◌};
ghost use Rattle.pane.specs.Answers.{Answers, refused_as};
ghost use Rattle.text.specs.Shown.{◌⊕◌, text_of};

use text::line::Line;

// An answer of this or more is a refusal: this times its number.
const REFUSAL_UNIT: u32 = 16777216;

// A refusal, by its number: any code that refuses has one, and a message shows it, also one that is no `controller::Refusal`.
#[derive(Clone, Copy, PartialEq, Eq, Debug)]
pub struct Refused {
    pub number: u8,
}

// What a call's code says. A code has 32 bits, so that the number has 8: `u8::try_from` would have an error that never comes.
pub fn answer(code: u32) -> Result<u32, Refused>
    ensures { Answers code result }
{
    if code < REFUSAL_UNIT {
        return Ok(code);
    }
    Err(Refused {
        number: (code / REFUSAL_UNIT) as u8,
    })
}

impl Refused {
    // Behind a line.
    pub fn shown(self, line: Line) -> Line
        ensures { text_of result ≡ text_of line ⊕ refused_as self.number }
    {
        line.text(b"refused by ").digits(u64::from(self.number))
    }
}
