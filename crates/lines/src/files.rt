// The three files of a saved machine.
ghost use Rattle.std.specs.Prelude.{◌≡◌, ◌≤◌, [], length};
ghost use Rattle.text.specs.Shown.{◌⊕◌, text_of};
ghost use Rattle.lines.specs.Files.{copied_over, is_earlier, length_fault, length_text, part_name, reason_text, suffix_of};

use text::bytes::first;
use text::line::Line;

// Lengths of images that earlier releases saved: before the count of granted cycles was in them, and with three bytes for what remains.
const IMAGE_BEFORE_COUNT: usize = 34;

const IMAGE_WITH_THREE_BYTES: usize = 38;

#[derive(Clone, Copy, PartialEq, Eq, Debug)]
pub enum Part {
    Image,
    Bus,
    Storage,
}

// What a file has, as far as it was counted.
#[derive(Clone, Copy, PartialEq, Eq, Debug)]
pub enum Length {
    // So many bytes.
    Exactly(usize),
    // So many bytes, and the file goes on.
    MoreThan(usize),
}

impl Part {
    // What its file's name ends with.
    fn suffix(self) -> &'static [u8]
        ensures { result.now ≡ suffix_of self }
    {
        match self {
            Part::Image => b"",
            Part::Bus => b".bus",
            Part::Storage => b".storage",
        }
    }
}

// The names of the three files.
pub fn part_name(name: &[u8], part: Part) -> Line
    ensures cut { text_of result ≡ [] ⊕ part_name name.now part }
    ensures whole { length name.now ≤ 160 → text_of result ≡ part_name name.now part }
{
    Line::from(name).text(part.suffix())
}

// Bytes over others, from the first on. What has no room is left out.
pub fn copy(from: &[u8], to: &mut [u8])
    ensures { to.new ≡ copied_over from.now to.old }
{
    let part = first(from, to.len());
    to[..part.len()].copy_from_slice(part);
}

// ---- a file that has another length than its part needs

// Lengths are cast to 64 bits, which a line shows: `u64` has no `From` of `usize`, and nothing is lost.
#[tactic(auto, unfolding(crate::specs::Files::length_text))]
fn length_text(file: &[u8], got: Length) -> Line
    ensures { text_of result ≡ length_text file.now got }
{
    let line = Line::new().fill(b"refused: % has ", file);
    match got {
        Length::Exactly(count) => line.digits(count as u64),
        Length::MoreThan(count) => line.text(b"more than ").digits(count as u64),
    }
}

fn is_earlier(got: Length) -> bool
    ensures { result ≡ is_earlier got }
{
    matches!(
        got,
        Length::Exactly(IMAGE_BEFORE_COUNT | IMAGE_WITH_THREE_BYTES)
    )
}

// Only an image has a refusal number for this, and only an image may be an earlier release's.
#[tactic(auto, unfolding(crate::specs::Files::reason_text))]
fn reason(line: Line, part: Part, got: Length) -> Line
    ensures { text_of result ≡ reason_text (text_of line) part got }
{
    if part != Part::Image {
        return line;
    }
    let image = line.text(b" (refusal 1)");
    if is_earlier(got) {
        return image.text(b": an earlier release saved it");
    }
    image
}

// The line about it.
pub fn length_fault(name: &[u8], part: Part, got: Length, needed: usize) -> Line
    ensures { text_of result ≡ length_fault name.now part got needed }
{
    let file = part_name(name, part);
    let line = length_text(file.as_bytes(), got)
        .text(b" bytes, ")
        .digits(needed as u64)
        .text(b" are needed");
    reason(line, part, got)
}
