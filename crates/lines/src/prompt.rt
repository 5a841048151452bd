// What stands before a command, and the program's own argument.
ghost use Rattle.std.specs.Prelude.{◌≡◌, ◌≤◌, [], length};
ghost use Rattle.text.specs.Shown.{◌⊕◌, ascii, text_of};
ghost use Rattle.text.specs.Typed.{same};
ghost use Rattle.lines.specs.Prompt.{echo_of, prompt_of};

use crate::commands::is_comment;
use text::line::Line;

pub fn prompt(cycle: u64) -> Line
    ensures { text_of result ≡ prompt_of cycle }
{
    Line::from(b"(").decimal(cycle).text(b") ")
}

// A command that nobody typed is shown as if it had been; a comment stands by itself.
#[tactic(auto, using(crate::proofs::Whole::whole, crate::proofs::Whole::twice))]
pub fn echoed(cycle: u64, line: &[u8]) -> Line
    ensures cut { text_of result ≡ [] ⊕ echo_of cycle line.now }
    ensures whole { length line.now ≤ 160 → text_of result ≡ echo_of cycle line.now }
{
    if is_comment(line) {
        return Line::from(line);
    }
    prompt(cycle).text(line)
}

// Whether rows that changed are to be bold.
#[tactic(auto, using(text::proofs::Same::same_is))]
pub fn is_colour(word: &[u8]) -> bool
    ensures { result ≡ same word.now (ascii "--colour") }
{
    word == b"--colour".as_slice()
}
