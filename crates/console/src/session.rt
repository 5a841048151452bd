// A session: what is remembered from one turn to the next, and what a turn does. While cycles are still to be stepped a turn is
// one cycle; otherwise it is one line. What only shows, and what has to do with files, is left to whoever has the terminal.
// Image, bus and storage one by one: see lib.rt.
ghost use Rattle.std.specs.Prelude.{◌≡◌, false, []};
ghost use Rattle.text.specs.Faults.{Says};
ghost use Rattle.text.specs.Typed.{word_of};
ghost use Rattle.lines.specs.Clock.{time_of};
ghost use Rattle.lines.specs.Keys.{command_of};
ghost use Rattle.console.specs.Apply.{apply_stores, step_stores};
ghost use Rattle.console.specs.Said.{obeyed_of, said_of};
ghost use Rattle.console.specs.Session.{cycle_turn, ended_after, ended_session, fault_in, held_of, obey_turn, steps_of, turn_of, turn_stores};

use crate::apply::{apply, count_or, step};
use lines::clock::Clock;
use lines::commands::{command, is_comment, line_fault};
use lines::keys::Command;
use pane::rows::size_in;
use regs::Stores;
use text::line::Line;

#[derive(Clone, Copy)]
pub struct Session {
    pub clock: Clock,
    // How many cycles are still to be stepped before the next line is read.
    pub left: u32,
    // Beside it: a turn leaves both, and neither says the other.
    pub ended: bool,
}

#[derive(Clone, Copy)]
pub struct Turned<'a> {
    pub session: Session,
    // A line to show, where there is something to say.
    pub said: Option<Line>,
    // The line that was obeyed, where one was.
    pub obeyed: Option<&'a [u8]>,
    // The registers that were stored, where a command ended with Autoload.
    pub stores: Stores,
}

impl Session {
    // At cycle 0, with no cycles to step.
    pub fn new() -> Session
        ensures clock_value { time_of result.clock ≡ (0, [], 0) }
        ensures left_value { result.left ≡ 0 }
        ensures ended_value { result.ended ≡ false }
    {
        Session {
            clock: Clock::new(),
            left: 0,
            ended: false,
        }
    }

    // At the end of the input.
    pub fn end(mut self) -> Session
        ensures { result ≡ ended_session self }
    {
        self.ended = true;
        self
    }
}

// ---- a turn is a cycle

fn cycle<'a>(session: Session, image: &mut [u8], bus: &mut [u8], storage: &mut [u8]) -> Turned<'a>
    ensures outcome { (held_of result.session image.new bus.new storage.new, said_of result.said, obeyed_of result.obeyed) ≡ cycle_turn session image.old bus.old storage.old }
    ensures stores_value { result.stores ≡ step_stores session.clock image.old bus.old storage.old }
{
    let done = step(session.clock, image, bus, storage);
    Turned {
        session: Session {
            clock: done.clock,
            left: session.left.saturating_sub(1),
            ended: session.ended,
        },
        said: done.said,
        obeyed: None,
        stores: done.stores,
    }
}

// ---- a turn is a line

// The cycles that a line asks for.
fn steps_of(line: &[u8]) -> u32
    ensures { result ≡ steps_of line.now }
{
    match command(line) {
        Some(Command::Z) => count_or(line, 1),
        _ => 0,
    }
}

fn ended_after(line: &[u8], ended: bool) -> bool
    ensures { result ≡ ended_after line.now ended }
{
    match command(line) {
        Some(Command::Q) => true,
        _ => ended,
    }
}

fn obey<'a>(
    line: &'a [u8],
    session: Session,
    image: &mut [u8],
    bus: &mut [u8],
    storage: &mut [u8],
) -> Turned<'a>
    ensures outcome { (held_of result.session image.new bus.new storage.new, said_of result.said, obeyed_of result.obeyed) ≡ obey_turn line.now session image.old bus.old storage.old }
    ensures stores_value { result.stores ≡ apply_stores (command_of (word_of 0 line.now)) line.now session.clock image.old bus.old storage.old }
{
    let done = apply(line, session.clock, image, bus, storage);
    Turned {
        session: Session {
            clock: done.clock,
            left: steps_of(line),
            ended: ended_after(line, session.ended),
        },
        said: done.said,
        obeyed: Some(line),
        stores: done.stores,
    }
}

// ---- a turn

// What is wrong with a line. The last offset of the storage goes by the size that the image sets.
fn fault_in(image: &[u8], line: &[u8]) -> Result<(), Line>
    ensures { Says result (fault_in image.now line.now) }
{
    line_fault(line, size_in(image) - 1)
}

// `line` is the next line, which is not looked at while cycles are still to be stepped. One that cannot be obeyed is forgotten, and so is a
// comment.
#[tactic(auto, unfolding(crate::specs::Session::turn_of, crate::specs::Session::turn_stores))]
pub fn turn<'a>(
    session: Session,
    line: &'a [u8],
    image: &mut [u8],
    bus: &mut [u8],
    storage: &mut [u8],
) -> Turned<'a>
    ensures outcome { (held_of result.session image.new bus.new storage.new, said_of result.said, obeyed_of result.obeyed) ≡ turn_of line.now session image.old bus.old storage.old }
    ensures stores_value { result.stores ≡ turn_stores line.now session image.old bus.old storage.old }
{
    if session.left > 0 {
        return cycle(session, image, bus, storage);
    }
    match fault_in(image, line) {
        Ok(()) if is_comment(line) => Turned {
            session,
            said: None,
            obeyed: None,
            stores: None,
        },
        Ok(()) => obey(line, session, image, bus, storage),
        Err(fault) => Turned {
            session,
            said: Some(fault),
            obeyed: None,
            stores: None,
        },
    }
}
