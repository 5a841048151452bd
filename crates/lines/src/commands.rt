// Which command a line is, and what is wrong with its words. Each function finds the words that it needs in the line: a parsed line would have
// room for 80 words, since there is no heap.
ghost use Rattle.std.specs.Prelude.{◌≡◌, find, [], if◌then◌else◌, eqb};
ghost use Rattle.text.specs.Faults.{Says};
ghost use Rattle.text.specs.Shown.{◌⊕◌, fill_from};
ghost use Rattle.text.specs.Typed.{same, word_of, words_of};
ghost use Rattle.lines.specs.Keys.{command_of, is_change, is_switch, name_of};
ghost use Rattle.lines.specs.Commands.{HasText, ba_fault, command_fault, count_fault, file_fault, is_comment, line_fault, size_fault, size_typed};
ghost use Rattle.lines.specs.Commands.{exactly as exactly_of};

use crate::clock::is_pattern;
use crate::keys::{COMMANDS, Command};
use crate::memory::{LAST_ADDRESS, show_fault, store_fault};
use crate::registers::{read_fault, write_fault};
use crate::texts::refuse;
use text::faults::number;
use text::line::{Line, WIDTH};
use text::words::{word, word_count};

const LAST_NUMBER: u32 = 0xFFFFFF;

// The longest name of a file behind which `.storage` still fits in a line with what is said of it.
const LONGEST_NAME: usize = 128;

fn first_named(commands: &[Command], word: &[u8]) -> Option<Command>
    ensures { result ≡ find (λ c. same (name_of c) word.now) commands.now }
{
    commands
        .iter()
        .copied()
        .find(|command| command.is_named(word))
}

// The command that a line's first word is. An Option and no `TryFrom`: of another word there is no more to say.
#[tactic(auto, unfolding(crate::specs::Keys::command_of))]
pub fn command(line: &[u8]) -> Option<Command>
    ensures { result ≡ command_of (word_of 0 line.now) }
{
    first_named(&COMMANDS, word(line, 0))
}

// The controller's lines and its switch.
fn is_switch(command: Option<Command>) -> bool
    ensures { result ≡ is_switch command }
{
    matches!(
        command,
        Some(
            Command::Ff00 | Command::Ff00Upper | Command::Enable | Command::Disable | Command::Reset
        )
    )
}

// Whether a line's command is there to change the controller.
pub fn is_change(line: &[u8]) -> bool
    ensures { result ≡ is_change (command_of (word_of 0 line.now)) }
{
    let command = command(line);
    matches!(command, Some(Command::W | Command::Size)) | is_switch(command)
}

// A line with no words, or whose first begins with #.
#[tactic(auto, unfolding(crate::specs::Commands::is_comment))]
pub fn is_comment(line: &[u8]) -> bool
    ensures { result ≡ is_comment line.now }
{
    matches!(word(line, 0), [] | [b'#', ..])
}

// ---- what is wrong

// A number that may be left out, by how many words there are.
#[tactic(auto, unfolding(crate::specs::Commands::count_fault))]
fn count_fault(line: &[u8]) -> Result<(), Line>
    ensures { Says result (count_fault line.now) }
{
    match word_count(line) {
        1 => Ok(()),
        2 => {
            number(word(line, 1), LAST_NUMBER)?;
            Ok(())
        }
        _ => refuse(b"usage: % [NUMBER]", word(line, 0)),
    }
}

// A line has exactly so many words. What it asks of the usage is asked inside this crate alone, where each is written out.
fn exactly(line: &[u8], words: usize, usage: &[u8]) -> Result<(), Line>
    requires { HasText usage.now }
    ensures { Says result (if eqb (words_of line.now) words then [] else ([] ⊕ fill_from usage.now (word_of 0 line.now))) }
{
    if word_count(line) == words {
        return Ok(());
    }
    refuse(usage, word(line, 0))
}

// A name that would not fit with `.storage` behind it names another file once it is cut.
#[tactic(auto, unfolding(crate::specs::Commands::file_fault))]
fn file_fault(line: &[u8]) -> Result<(), Line>
    ensures { Says result (file_fault line.now) }
{
    if LONGEST_NAME < word(line, 1).len() {
        return refuse(
            b"usage: % FILE, a name of at most 128 characters",
            word(line, 0),
        );
    }
    exactly(line, 2, b"usage: % FILE")
}

// BA of the following cycles.
#[tactic(auto, unfolding(crate::specs::Commands::ba_fault))]
fn ba_fault(line: &[u8]) -> Result<(), Line>
    ensures { Says result (ba_fault line.now) }
{
    let usage =
        b"usage: % PATTERN, a letter a cycle: h high, l low, f falls, r rises, 0 to 7 the inputs";
    if is_pattern(word(line, 1)) {
        return exactly(line, 2, usage);
    }
    refuse(usage, word(line, 0))
}

// The size in bytes that a word says in KiB. The numbers of other commands are hexadecimal, but these are the names that the units have.
#[tactic(auto, unfolding(crate::specs::Commands::size_typed, text::specs::Typed::same))]
pub fn size_typed(word: &[u8]) -> Option<u64>
    ensures { result ≡ size_typed word.now }
{
    match word {
        b"128" => Some(131072),
        b"256" => Some(262144),
        b"512" => Some(524288),
        _ => None,
    }
}

#[tactic(auto, unfolding(crate::specs::Commands::size_fault))]
fn size_fault(line: &[u8]) -> Result<(), Line>
    ensures { Says result (size_fault line.now) }
{
    let usage = b"usage: % 128, % 256 or % 512 (KiB), before enable";
    if size_typed(word(line, 1)).is_none() {
        return refuse(usage, word(line, 0));
    }
    exactly(line, 2, usage)
}

// Of commands that are a word alone.
fn alone_fault(line: &[u8]) -> Result<(), Line>
    ensures { Says result (exactly_of 1 "usage: %, with nothing after it" line.now) }
{
    exactly(line, 1, b"usage: %, with nothing after it")
}

// `last` is the last offset of the storage, which goes by its size.
fn command_fault(line: &[u8], last: u32) -> Result<(), Line>
    ensures { Says result (command_fault (command_of (word_of 0 line.now)) line.now last) }
{
    match command(line) {
        Some(Command::M) => show_fault(line, LAST_ADDRESS),
        Some(Command::Ms) => show_fault(line, last),
        Some(Command::Poke) => store_fault(line, LAST_ADDRESS),
        Some(Command::PokeStorage) => store_fault(line, last),
        Some(Command::W) => write_fault(line),
        Some(Command::Rd) => read_fault(line),
        Some(Command::Z | Command::G | Command::Cycle) => count_fault(line),
        Some(Command::Save | Command::Open | Command::Beside) => file_fault(line),
        Some(Command::Ba) => ba_fault(line),
        Some(Command::Size) => size_fault(line),
        Some(_) => alone_fault(line),
        None => refuse(b"unknown command: % (help lists them)", word(line, 0)),
    }
}

// Of any line. A comment is no fault.
#[tactic(auto, unfolding(crate::specs::Commands::line_fault))]
pub fn line_fault(line: &[u8], last: u32) -> Result<(), Line>
    ensures { Says result (line_fault line.now last) }
{
    if WIDTH <= line.len() {
        return Err(Line::from(b"this line is too long: 159 characters are the most"));
    }
    if is_comment(line) {
        return Ok(());
    }
    command_fault(line, last)
}
