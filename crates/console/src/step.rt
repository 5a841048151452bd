// Bus cycles: one by one, or until the command ends. An offset is cast where it indexes: `usize` has no `From` of `u32`, and nothing is lost.
// Image, bus and storage one by one: see lib.rt.
ghost use Rattle.std.specs.Prelude.{◌≡◌, ℕ, List, Option, Result};
ghost use Rattle.text.specs.Shown.{◌⊕◌, text_of};
ghost use Rattle.lines.specs.Clock.{time_of};
ghost use Rattle.pane.specs.declared.answers.Refused.{Refused};
ghost use Rattle.console.specs.declared.step.Cycle.{Cycle};
ghost use Rattle.console.specs.Step.{access_ready, access_text, action_in, advanced, asked_before, asked_of, ba_text, bytes_at, bytes_by, counted, cycle_line, cycle_of, done_text, go_of, grant_text, mark_if, passed_text, run_line, run_text, started, store_line, stores_in, time_after};

use lines::clock::{Clock, Inputs};
use pane::answers::{Refused, answer};
use pane::rows::{copied, size_in, transfer_expansion};
use regs::{RegisterStore, Stores};
use text::bytes::byte;
use text::line::Line;
use transfer::{C64Address, Passed, ReuBusAction, ReuC64Access};

const BUS_SIZE: usize = 65536;

// What a cycle was granted, the access to the bus that the controller had ready, the offset in the storage, which address ran over its
// top, and what it stored.
#[derive(Clone, Copy, PartialEq, Eq, Debug)]
pub struct Cycle {
    pub grant: ReuBusAction,
    pub access: ReuC64Access,
    pub offset: u32,
    pub passed: Passed,
    pub stores: Stores,
}

// ---- numbers of the calls, as the C interface has them

// A grant: no call answers another number.
fn action_in(value: u32) -> ReuBusAction
    ensures { result ≡ action_in value }
{
    ReuBusAction::try_from(value).unwrap_or(ReuBusAction::Transfer)
}

// The access that is then ready. Where it is refused there is none.
fn access_ready(image: &[u8]) -> ReuC64Access
    ensures { result ≡ access_ready image.now }
{
    let value = answer(reu::reu_c64_access(image)).unwrap_or(0);
    ReuC64Access::try_from(value).unwrap_or(ReuC64Access::None)
}

// The grant of the cycle that comes next, asked of a copy of the image; what passes a top and what is stored only the cycle itself
// says. What the asking may write, the byte of a swap that is given up, the cycle writes again itself.
fn ask(inputs: Inputs, number: u64, image: &[u8], storage: &mut [u8]) -> Result<Cycle, Refused>
    ensures { ◌≡◌ {A = Result Cycle Refused × List ℕ} (result, storage.new) (asked_of inputs number image.now storage.old) }
{
    let mut copy = copied(image);
    let high = u32::from(inputs.ba_high);
    let phi1 = u32::from(inputs.ba_high_phi1);
    let grant = answer(reu::reu_bus_action(&mut copy, storage, high, phi1, number))?;
    Ok(Cycle {
        grant: action_in(grant),
        access: access_ready(&copy),
        offset: transfer_expansion(&copy) % size_in(&copy),
        passed: Passed::NEITHER,
        stores: None,
    })
}

// The same, unless the cycle is lent a bus of another length: it is then refused and writes nothing, so nothing is asked before it.
#[tactic(auto, unfolding(crate::specs::Step::asked_before))]
fn ask_before(
    inputs: Inputs,
    number: u64,
    image: &[u8],
    bus: &[u8],
    storage: &mut [u8],
) -> Option<Result<Cycle, Refused>>
    ensures { ◌≡◌ {A = Option (Result Cycle Refused) × List ℕ} (result, storage.new) (asked_before inputs number image.now bus.now storage.old) }
{
    if bus.len() != BUS_SIZE {
        return None;
    }
    Some(ask(inputs, number, image, storage))
}

// One bus cycle, with the stores that the library hands out.
pub fn run_cycle(
    inputs: Inputs,
    number: u64,
    image: &mut [u8],
    bus: &mut [u8],
    storage: &mut [u8],
) -> Result<Cycle, Refused>
    ensures { (result, image.new, bus.new, storage.new) ≡ cycle_of inputs number image.old bus.old storage.old }
{
    let asked = ask_before(inputs, number, image, bus, storage);
    let high = u32::from(inputs.ba_high);
    let phi1 = u32::from(inputs.ba_high_phi1);
    let low = u32::from(inputs.ba_low);
    let logged = reu::logged_cycle(image, bus, storage, high, number, low, phi1);
    let value = answer(logged.answer)?;
    // What was not refused had a bus of that length.
    let Some(asked) = asked else { unreachable!() };
    Ok(Cycle {
        passed: Passed::from(value),
        stores: logged.stores,
        ..asked?
    })
}

// ---- one cycle, shown

// BA as the letter says it that was typed, which `lines` turns into the inputs.
#[tactic(auto, unfolding(crate::specs::Step::ba_text))]
fn ba_text(line: Line, letter: u8) -> Line
    ensures { text_of result ≡ ba_text (text_of line) letter }
{
    match letter {
        b'h' => line.text(b"  BA high  "),
        b'l' => line.text(b"  BA low   "),
        b'f' => line.text(b"  BA falls "),
        b'r' => line.text(b"  BA rises "),
        _ => line.text(b"  BA ").put(letter).text(b"     "),
    }
}

fn grant_text(grant: ReuBusAction) -> &'static [u8]
    ensures { result.now ≡ grant_text grant }
{
    match grant {
        ReuBusAction::Cpu => b"Cpu     ",
        ReuBusAction::Hold => b"Hold    ",
        ReuBusAction::Transfer => b"Transfer",
    }
}

#[tactic(auto, unfolding(crate::specs::Step::access_text))]
fn access_text(line: Line, access: ReuC64Access) -> Line
    ensures { text_of result ≡ access_text (text_of line) access }
{
    match access {
        ReuC64Access::None => line.text(b"  no access"),
        ReuC64Access::Read(address) => line.text(b"  read  ").hex(4, u32::from(address.0)),
        ReuC64Access::Write(address) => line.text(b"  write ").hex(4, u32::from(address.0)),
    }
}

// The two bytes at the transfer's place, as they are after the cycle.
fn bytes_at(line: Line, address: C64Address, offset: u32, bus: &[u8], storage: &[u8]) -> Line
    ensures { text_of result ≡ bytes_at (text_of line) address offset bus.now storage.now }
{
    line.text(b"  bus ")
        .hex(2, u32::from(byte(bus, usize::from(address.0))))
        .text(b"  storage ")
        .hex(5, offset)
        .text(b" ")
        .hex(2, u32::from(byte(storage, offset as usize)))
}

// None, where there is no access.
#[tactic(auto, unfolding(crate::specs::Step::bytes_by))]
fn bytes_by(line: Line, done: Cycle, bus: &[u8], storage: &[u8]) -> Line
    ensures { text_of result ≡ bytes_by (text_of line) done.access done.offset bus.now storage.now }
{
    match done.access {
        ReuC64Access::None => line,
        ReuC64Access::Read(address) | ReuC64Access::Write(address) => {
            bytes_at(line, address, done.offset, bus, storage)
        }
    }
}

fn mark_if(line: Line, shown: bool, mark: &[u8]) -> Line
    ensures { text_of result ≡ mark_if (text_of line) shown mark.now }
{
    if shown {
        return line.text(mark);
    }
    line
}

// A mark for each address that ran over its top, behind what a line has.
#[tactic(auto, unfolding(crate::specs::Step::passed_text))]
fn passed_text(line: Line, passed: Passed) -> Line
    ensures { text_of result ≡ passed_text (text_of line) passed }
{
    let marked = mark_if(line, passed.c64, b"  c64 passed FFFF");
    mark_if(marked, passed.expansion, b"  exp passed FFFFFF")
}

// The grant, the access, the bytes and the marks, behind what a line has; a refused cycle has its refusal alone.
#[tactic(auto, unfolding(crate::specs::Step::done_text))]
fn done_text(line: Line, done: Result<Cycle, Refused>, bus: &[u8], storage: &[u8]) -> Line
    ensures { text_of result ≡ done_text (text_of line) done bus.now storage.now }
{
    match done {
        Ok(cycle) => {
            let granted = line.text(grant_text(cycle.grant));
            let there = bytes_by(access_text(granted, cycle.access), cycle, bus, storage);
            passed_text(there, cycle.passed)
        }
        Err(refused) => refused.shown(line),
    }
}

// A cycle by its number, BA and what was done.
#[tactic(auto, unfolding(crate::specs::Step::cycle_line))]
pub fn cycle_line(clock: &Clock, done: Result<Cycle, Refused>, bus: &[u8], storage: &[u8]) -> Line
    ensures { text_of result ≡ cycle_line clock.now done bus.now storage.now }
{
    let line = ba_text(Line::new().decimal(clock.cycle), clock.letter());
    done_text(line, done, bus, storage)
}

// A register that was stored, and the byte, also where it held that byte before.
pub fn store_line(one: RegisterStore) -> Line
    ensures { text_of result ≡ store_line one }
{
    Line::new()
        .hex(4, 0xDF00 + u32::from(one.index))
        .text(b" stored ")
        .hex(2, u32::from(one.value))
}

// What a cycle stored; one that was refused stored nothing.
pub fn stores_in(done: Result<Cycle, Refused>) -> Stores
    ensures { result ≡ stores_in done }
{
    done.map_or(None, |cycle| cycle.stores)
}

// The time after a cycle: one that was refused takes none.
#[tactic(auto, unfolding(crate::specs::Step::time_after))]
pub fn after(clock: Clock, done: Result<Cycle, Refused>) -> Clock
    ensures { time_of result ≡ time_after (time_of clock) done }
{
    match done {
        Ok(_) => clock.next(),
        Err(_) => clock,
    }
}

// ---- until the command ends

// How far a run came, which address ran over its top in any of its cycles, and what the last of them stored. The run ends with the
// command, so no cycle before the last has stored anything (claims::autoload_stores: a step that stores has ended the command).
#[derive(Clone, Copy)]
pub struct Run {
    pub clock: Clock,
    pub granted: u64,
    pub held: u64,
    pub passed: Passed,
    pub stores: Stores,
}

// A cycle more, unless it was refused.
#[tactic(auto, unfolding(crate::specs::Step::counted))]
fn count(run: Run, done: Result<Cycle, Refused>) -> Run
    ensures { result ≡ counted run done }
{
    let Ok(cycle) = done else {
        return run;
    };
    let run = Run {
        clock: run.clock.next(),
        passed: run.passed | cycle.passed,
        stores: cycle.stores,
        ..run
    };
    match cycle.grant {
        ReuBusAction::Transfer => Run {
            granted: run.granted.wrapping_add(1),
            ..run
        },
        ReuBusAction::Cpu | ReuBusAction::Hold => Run {
            held: run.held.wrapping_add(1),
            ..run
        },
    }
}

// A cycle, while a command runs.
#[tactic(auto, unfolding(crate::specs::Step::advanced))]
fn advance(run: Run, image: &mut [u8], bus: &mut [u8], storage: &mut [u8]) -> Run
    ensures { (result, image.new, bus.new, storage.new) ≡ advanced (run, image.old, bus.old, storage.old) }
{
    if reu::reu_dma_active(image) != 1 {
        return run;
    }
    let inputs = run.clock.inputs().unwrap_or(Inputs::NOTHING);
    let done = run_cycle(inputs, run.clock.cycle, image, bus, storage);
    count(run, done)
}

// Cycles until the command has ended, and at most `limit`: a count, with nothing to go through. Where no command runs a step changes nothing.
pub fn go(clock: Clock, limit: u32, image: &mut [u8], bus: &mut [u8], storage: &mut [u8]) -> Run
    ensures { (result, image.new, bus.new, storage.new) ≡ go_of limit (started clock, image.old, bus.old, storage.old) }
{
    let mut run = Run {
        clock,
        granted: 0,
        held: 0,
        passed: Passed::NEITHER,
        stores: None,
    };
    for _ in 0..limit {
        run = advance(run, image, bus, storage);
    }
    run
}

// How many cycles a run had, and how it ended.
#[tactic(auto, unfolding(crate::specs::Step::run_text))]
fn run_text(run: &Run, image: &[u8]) -> Line
    ensures { text_of result ≡ run_text run.now image.now }
{
    let line = Line::new()
        .decimal(run.granted)
        .text(b" cycles granted, ")
        .decimal(run.held);
    match answer(reu::reu_dma_active(image)) {
        Ok(0) => line.text(b" held: the command has ended"),
        Ok(_) => line.text(b" held: at the limit, and the command still runs"),
        Err(refused) => refused.shown(line.text(b" held: the image is ")),
    }
}

// What to say of a run.
#[tactic(auto, unfolding(crate::specs::Step::run_line))]
pub fn run_line(run: &Run, image: &[u8]) -> Line
    ensures { text_of result ≡ run_line run.now image.now }
{
    passed_text(run_text(run, image), run.passed)
}
