// What a command does to the machine and to the time, what it says, and what it stores. Commands that only show, and those on files, are not here.
// Image, bus and storage one by one: see lib.rt.
ghost use Rattle.std.specs.Prelude.{◌≡◌, ℕ, []};
ghost use Rattle.transfer.specs.Memory.{zeros};
ghost use Rattle.text.specs.Shown.{◌⊕◌};
ghost use Rattle.text.specs.Typed.{word_of};
ghost use Rattle.reu.specs.Exports.{reu_new};
ghost use Rattle.console.specs.Apply.{apply_of, apply_stores, bus_hint, control_of, count_or, cycle_time, cycle_text, go_outcome, go_stores, size_text, sized, step_outcome, step_stores};
ghost use Rattle.console.specs.Said.{said_of};
ghost use Rattle.lines.specs.Clock.{time_of};
ghost use Rattle.lines.specs.Keys.{command_of};
ghost use Rattle.lines.specs.Memory.{stored};
ghost use Rattle.console.specs.Registers.{warning_of, written};

use crate::registers;
use crate::step::{after, cycle_line, go, run_cycle, run_line, stores_in};
use controller::Refusal;
use lines::clock::{Clock, Inputs};
use lines::commands::{command, size_typed};
use lines::keys::Command;
use lines::memory::{address_of, store};
use pane::answers::answer;
use regs::Stores;
use text::faults::value;
use text::line::Line;
use text::words::{word, word_count};

// A swap of 65,536 bytes takes 131,072 cycles, and BA may hold it as long again.
const LIMIT: u32 = 0x40000;

#[derive(Clone, Copy)]
pub struct Applied {
    pub clock: Clock,
    // A line to show, where there is something to say.
    pub said: Option<Line>,
    // The registers that were stored, where a command ended with Autoload.
    pub stores: Stores,
}

// A command's number, or another where it has none.
pub fn count_or(line: &[u8], other: u32) -> u32
    ensures { result ≡ count_or line.now other }
{
    if word_count(line) == 2 {
        return value(word(line, 1));
    }
    other
}

// A time, and what is said: no cycle is made, so nothing is stored.
fn spoken(clock: Clock, said: Option<Line>) -> Applied
    ensures { result ≡ record { clock = clock; said = said; stores = None } }
{
    Applied {
        clock,
        said,
        stores: None,
    }
}

// A time, of which nothing is said.
fn quiet(clock: Clock) -> Applied
    ensures clock_value { result.clock ≡ clock }
    ensures said_value { said_of result.said ≡ None }
    ensures stores_value { result.stores ≡ None }
{
    spoken(clock, None)
}

// ---- bytes: > and >s

// Authors who mean a register may write to the bus below it.
fn bus_hint(line: &[u8]) -> Option<Line>
    ensures { said_of result ≡ bus_hint line.now }
{
    if address_of(line) / 256 == 0xDF {
        return Some(Line::from(b"(bytes of the bus; the registers are written by w)"));
    }
    None
}

fn poke(line: &[u8], bus: &mut [u8]) -> Option<Line>
    ensures said_value { said_of result ≡ bus_hint line.now }
    ensures bus_after { bus.new ≡ stored line.now bus.old }
{
    store(line, bus);
    bus_hint(line)
}

// ---- the controller: w, rd, ff00, enable, disable, reset, size, new

fn write(line: &[u8], image: &mut [u8]) -> Option<Line>
    ensures said_value { said_of result ≡ warning_of image.old }
    ensures image_after { image.new ≡ written line.now image.old }
{
    let said = registers::warning(image);
    registers::write(line, image);
    said
}

// What to say of a size, by what the call answered. Authors may not expect that a new machine is needed.
#[tactic(auto, unfolding(crate::specs::Apply::size_text))]
fn size_text(code: u32) -> Option<Line>
    ensures { said_of result ≡ size_text code }
{
    let Err(refused) = answer(code) else {
        return None;
    };
    let line = refused.shown(Line::from(b"the size is "));
    // `refused` has a number alone: see pane.
    if u32::from(refused.number) == u32::from(Refusal::Attached) {
        return Some(line.text(b": storage is attached (new makes a machine without)"));
    }
    Some(line)
}

// A word that is no size is taken as 0, which the call refuses.
fn set_size(line: &[u8], image: &mut [u8]) -> Option<Line>
    ensures said_value { said_of result ≡ size_text (sized line.now image.old).0 }
    ensures image_after { image.new ≡ (sized line.now image.old).1 }
{
    let size = size_typed(word(line, 1)).unwrap_or(0);
    size_text(reu::reu_set_size(image, size))
}

fn renew(image: &mut [u8], bus: &mut [u8], storage: &mut [u8]) -> Applied
    ensures clock_value { time_of result.clock ≡ (0, [], 0) }
    ensures said_value { said_of result.said ≡ None }
    ensures stores_value { result.stores ≡ None }
    ensures image_after { image.new ≡ (reu_new image.old).1 }
    ensures bus_after { bus.new ≡ zeros bus.old }
    ensures storage_after { storage.new ≡ zeros storage.old }
{
    reu::reu_new(image);
    transfer::clear(bus);
    transfer::clear(storage);
    quiet(Clock::new())
}

// ---- time: ba, cycle, a cycle, g

fn set_ba(line: &[u8], clock: Clock) -> Applied
    ensures clock_value { time_of result.clock ≡ (clock.cycle, [] ⊕ word_of 1 line.now, 0) }
    ensures said_value { said_of result.said ≡ None }
    ensures stores_value { result.stores ≡ None }
{
    quiet(Clock {
        cycle: clock.cycle,
        ba: Line::from(word(line, 1)),
        at: 0,
    })
}

fn set_cycle(line: &[u8], clock: Clock) -> Applied
    ensures clock_value { time_of result.clock ≡ cycle_time line.now clock }
    ensures said_value { said_of result.said ≡ cycle_text line.now clock }
    ensures stores_value { result.stores ≡ None }
{
    if word_count(line) == 2 {
        return quiet(Clock {
            cycle: u64::from(value(word(line, 1))),
            ..clock
        });
    }
    let said = Line::from(b"the next cycle is ").decimal(clock.cycle);
    spoken(clock, Some(said))
}

// One bus cycle: what it was granted, and the bytes after it.
#[tactic(auto, unfolding(crate::specs::Apply::step_outcome, crate::specs::Apply::step_stores))]
pub fn step(clock: Clock, image: &mut [u8], bus: &mut [u8], storage: &mut [u8]) -> Applied
    ensures outcome { (time_of result.clock, said_of result.said, image.new, bus.new, storage.new) ≡ step_outcome clock image.old bus.old storage.old }
    ensures stores_value { result.stores ≡ step_stores clock image.old bus.old storage.old }
{
    let inputs = clock.inputs().unwrap_or(Inputs::NOTHING);
    let done = run_cycle(inputs, clock.cycle, image, bus, storage);
    let said = cycle_line(&clock, done, bus, storage);
    Applied {
        clock: after(clock, done),
        said: Some(said),
        stores: stores_in(done),
    }
}

#[tactic(auto, unfolding(crate::specs::Apply::go_outcome, crate::specs::Apply::go_stores))]
fn run_command(
    line: &[u8],
    clock: Clock,
    image: &mut [u8],
    bus: &mut [u8],
    storage: &mut [u8],
) -> Applied
    ensures outcome { (time_of result.clock, said_of result.said, image.new, bus.new, storage.new) ≡ go_outcome line.now clock image.old bus.old storage.old }
    ensures stores_value { result.stores ≡ go_stores line.now clock image.old bus.old storage.old }
{
    if reu::reu_dma_active(image) == 0 {
        let said = Line::from(b"no command runs (an armed one waits for ff00)");
        return spoken(clock, Some(said));
    }
    let run = go(clock, count_or(line, LIMIT), image, bus, storage);
    let said = run_line(&run, image);
    Applied {
        clock: run.clock,
        said: Some(said),
        stores: run.stores,
    }
}

// ---- any of them

// A command about the controller or the time alone: nothing, where it is none of these.
#[tactic(auto, unfolding(crate::specs::Apply::control_of))]
fn control(line: &[u8], clock: Clock, image: &mut [u8]) -> Applied
    ensures outcome { (time_of result.clock, said_of result.said, image.new) ≡ control_of (command_of (word_of 0 line.now)) line.now clock image.old }
    ensures stores_value { result.stores ≡ None }
{
    let said = match command(line) {
        Some(Command::W) => write(line, image),
        Some(Command::Rd) => Some(registers::read(line, image)),
        Some(Command::Ff00 | Command::Ff00Upper) => {
            reu::reu_trigger_ff00(image);
            None
        }
        Some(Command::Reset) => {
            reu::reu_reset(image, 0);
            None
        }
        Some(Command::Size) => set_size(line, image),
        Some(Command::Ba) => return set_ba(line, clock),
        Some(Command::Cycle) => return set_cycle(line, clock),
        _ => None,
    };
    spoken(clock, said)
}

// The command that a line is.
#[tactic(auto, unfolding(crate::specs::Apply::apply_of, crate::specs::Apply::apply_stores))]
pub fn apply(
    line: &[u8],
    clock: Clock,
    image: &mut [u8],
    bus: &mut [u8],
    storage: &mut [u8],
) -> Applied
    ensures outcome { (time_of result.clock, said_of result.said, image.new, bus.new, storage.new) ≡ apply_of (command_of (word_of 0 line.now)) line.now clock image.old bus.old storage.old }
    ensures stores_value { result.stores ≡ apply_stores (command_of (word_of 0 line.now)) line.now clock image.old bus.old storage.old }
{
    let said = match command(line) {
        Some(Command::Poke) => poke(line, bus),
        Some(Command::PokeStorage) => {
            store(line, storage);
            None
        }
        Some(Command::Enable) => {
            reu::reu_set_enabled(image, storage, 1);
            None
        }
        Some(Command::Disable) => {
            reu::reu_set_enabled(image, storage, 0);
            None
        }
        Some(Command::New) => return renew(image, bus, storage),
        Some(Command::G) => return run_command(line, clock, image, bus, storage),
        _ => return control(line, clock, image),
    };
    spoken(clock, said)
}
