// Time: the number of the next cycle, and the BA inputs of those to come.
ghost use Rattle.std.specs.Prelude.{◌≡◌, []};
ghost use Rattle.text.specs.Shown.{text_of};
ghost use Rattle.lines.specs.Clock.{inputs_of, is_pattern, letter_of, next_clock, said_by};

use text::line::Line;

// BA in a cycle: high to the processor, high at the first phase, low to the transfer.
#[derive(Clone, Copy, PartialEq, Eq, Debug)]
pub struct Inputs {
    pub ba_high: bool,
    pub ba_high_phi1: bool,
    pub ba_low: bool,
}

impl Inputs {
    // What is no letter says nothing of BA.
    pub const NOTHING: Inputs = Inputs {
        ba_high: false,
        ba_high_phi1: false,
        ba_low: false,
    };
}

#[derive(Clone, Copy)]
pub struct Clock {
    pub cycle: u64,
    // A letter for each of the following cycles; past the end BA is high.
    pub ba: Line,
    // The place of the next cycle's letter.
    pub at: usize,
}

// What a number from 0 to 7 says of BA, by its bits.
fn said_by(number: u8) -> Inputs
    ensures { result ≡ said_by number }
{
    Inputs {
        ba_high: number & 4 != 0,
        ba_high_phi1: number & 2 != 0,
        ba_low: number & 1 != 0,
    }
}

// What a letter says of BA. An Option and no `TryFrom`: of what is no letter there is no more to say.
#[tactic(auto, unfolding(crate::specs::Clock::inputs_of))]
fn inputs_of(letter: u8) -> Option<Inputs>
    ensures { result ≡ inputs_of letter }
{
    match letter {
        b'h' => Some(said_by(6)),
        b'l' => Some(said_by(1)),
        b'f' => Some(said_by(3)),
        b'r' => Some(said_by(4)),
        b'0'..=b'7' => Some(said_by(letter - b'0')),
        _ => None,
    }
}

// Whether a word has only letters.
pub fn is_pattern(word: &[u8]) -> bool
    ensures { result ≡ is_pattern word.now }
{
    word.iter().all(|letter| inputs_of(*letter).is_some())
}

impl Clock {
    // Cycle 0, and BA high from then on.
    pub fn new() -> Clock
        ensures cycle_value { result.cycle ≡ 0 }
        ensures ba_value { text_of result.ba ≡ [] }
        ensures at_value { result.at ≡ 0 }
    {
        Clock {
            cycle: 0,
            ba: Line::new(),
            at: 0,
        }
    }

    // The letter of the next cycle.
    pub fn letter(&self) -> u8
        ensures { result ≡ letter_of self.now }
    {
        self.ba.as_bytes().get(self.at).copied().unwrap_or(b'h')
    }

    // The inputs of the next cycle; none where its letter is no letter of a pattern.
    pub fn inputs(&self) -> Option<Inputs>
        ensures { result ≡ inputs_of (letter_of self.now) }
    {
        inputs_of(self.letter())
    }

    // After a cycle. Cycle numbers have 64 bits, and after the last comes 0.
    pub fn next(self) -> Clock
        ensures { result ≡ next_clock self }
    {
        let later = self.at + usize::from(self.at < self.ba.as_bytes().len());
        Clock {
            cycle: self.cycle.wrapping_add(1),
            at: later,
            ..self
        }
    }
}
