// What is wrong with a number that was typed, as a line to show.
ghost use Rattle.std.specs.Prelude.{◌≡◌, ◌≤◌, IfOk};
ghost use Rattle.text.specs.Faults.{Says, fault_of, faults_of, larger};
ghost use Rattle.text.specs.Shown.{text_of};
ghost use Rattle.text.specs.Typed.{number_of, value_of};

use crate::line::Line;
use crate::number::{NumberFault, value_of};
use crate::words::{word, word_count};

// A number of at most `most`. No `TryFrom`: it takes `most` beside the word.
#[tactic(auto, unfolding(crate::specs::Faults::fault_of))]
pub fn number(word: &[u8], most: u32) -> Result<u32, Line>
    ensures says { Says result (fault_of word.now most) }
    ensures value { IfOk result (λ n. n ≡ value_of (number_of word.now)) }
    ensures upper_bound { IfOk result (λ n. n ≤ most) }
{
    match value_of(word) {
        Ok(value) if value <= most => Ok(value),
        // Tried as one pattern with the next: the proof did not close, since the second of its cases has no facts that a proof can name.
        Ok(_) => Err(larger(word, most)),
        Err(NumberFault::TooLarge) => Err(larger(word, most)),
        Err(NumberFault::Bad) => Err(Line::new().fill(
            b"bad number: % (hexadecimal, $ optional; decimal with a leading +)",
            word,
        )),
    }
}

fn larger(word: &[u8], most: u32) -> Line
    ensures { text_of result ≡ larger word.now most }
{
    Line::new()
        .fill(b"too large: % (at most ", word)
        .hex(6, most)
        .put(b')')
}

// The words of a line from one on, each a number of at most `most`: the first fault. By a word's number: see words.rt.
pub fn numbers(line: &[u8], from: usize, most: u32) -> Result<(), Line>
    ensures { Says result (faults_of line.now from most) }
{
    for i in from..word_count(line) {
        number(word(line, i), most)?;
    }
    Ok(())
}

// The number that a word is; 0 for what is none, and no Option: it is asked of words that were found right, and the definitions say 0 of others.
pub fn value(word: &[u8]) -> u32
    ensures value { result ≡ value_of (number_of word.now) }
    ensures upper_bound { result ≤ 16777215 }
{
    value_of(word).unwrap_or(0)
}
