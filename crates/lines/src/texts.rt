// What is said of a line that is refused.
ghost use Rattle.std.specs.Prelude.{[]};
ghost use Rattle.text.specs.Faults.{Says};
ghost use Rattle.text.specs.Shown.{◌⊕◌, fill_from};
ghost use Rattle.lines.specs.Commands.{HasText};

use text::line::Line;

// A text in which a word, mostly the command's, stands for each %. That it has a text is asked inside this crate alone.
pub(crate) fn refuse(template: &[u8], word: &[u8]) -> Result<(), Line>
    requires { HasText template.now }
    ensures { Says result ([] ⊕ fill_from template.now word.now) }
{
    Err(Line::new().fill(template, word))
}
