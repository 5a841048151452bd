// A turn: a line is read; what the turn says, the registers that it stored and the rows of the pane that it changed are shown.
use crate::files;
use crate::help::help;
use crate::input::read_line;
use crate::machine::Machine;
use crate::output::{Screen, say, say_stores, show_bytes, show_pane, tell};
use console::session::{Session, Turned};
use lines::beside::{BEFORE, Between};
use lines::commands::{command, is_change};
use lines::keys::Command;
use lines::memory::{LAST_ADDRESS, Memory};
use lines::prompt::{echoed, prompt};
use pane::rows::size_in;
use std::io;
use std::io::Read;
use std::rt::Files;
use text::line::Line;
use text::words::word;

// How commands are shown: in colour, and, where nobody typed them, each before its answer. Both are asked once, at the start.
#[derive(Clone, Copy)]
pub struct Terminal {
    pub colour: bool,
    pub echo: bool,
}

// Somebody is asked. At the input's end the shell's prompt is to stand on a line of its own.
fn ask(rt: &impl Print, cycle: u64, source: &mut impl Read) -> io::Result<Option<Line>> {
    rt.write_all(prompt(cycle).as_bytes())?;
    let line = read_line(source);
    if line.is_none() {
        tell(rt, b"")?;
    }
    Ok(line)
}

fn echo(rt: &impl Print, cycle: u64, source: &mut impl Read) -> io::Result<Option<Line>> {
    let line = read_line(source);
    if let Some(read) = &line {
        say(rt, &echoed(cycle, read.as_bytes()))?;
    }
    Ok(line)
}

// The next line; none at the input's end. While cycles are still to be stepped it is not looked at, so a line of no bytes stands for it.
fn listen(
    rt: &impl Print,
    session: &Session,
    source: &mut impl Read,
    terminal: Terminal,
) -> io::Result<Option<Line>> {
    if session.left > 0 {
        return Ok(Some(Line::new()));
    }
    let cycle = session.clock.cycle;
    if terminal.echo {
        return echo(rt, cycle, source);
    }
    ask(rt, cycle, source)
}

// What was done is said by a text in which the file's name stands for each %, and what was not by the error.
fn say_done(
    rt: &impl Print,
    done: Result<(), Line>,
    template: &[u8],
    name: &[u8],
) -> io::Result<()> {
    match done {
        Ok(()) => say(rt, &Line::new().fill(template, name)),
        Err(fault) => say(rt, &fault),
    }
}

fn compare<P: Files + Print>(
    screen: &Screen<'_, P>,
    name: &[u8],
    machine: &Machine,
) -> io::Result<()> {
    match files::read_image(screen.rt, name) {
        Ok(saved) => {
            screen.show_beside(&machine.image, Between::Every, &saved)?;
            Ok(())
        }
        Err(fault) => say(screen.rt, &fault),
    }
}

// The commands that only show, and those on files.
fn perform<P: Files + Print>(
    screen: &Screen<'_, P>,
    line: &[u8],
    machine: &mut Machine,
) -> io::Result<()> {
    let rt = screen.rt;
    let name = word(line, 1);
    match command(line) {
        Some(Command::R) => show_pane(rt, &machine.image)?,
        Some(Command::M) => show_bytes(rt, line, Memory::Bus, &machine.bus, LAST_ADDRESS)?,
        Some(Command::Ms) => {
            let last = size_in(&machine.image) - 1;
            show_bytes(rt, line, Memory::Storage, &machine.storage, last)?
        }
        Some(Command::Beside) => compare(screen, name, machine)?,
        Some(Command::Save) => {
            let saved = files::save(rt, name, machine);
            say_done(rt, saved, b"saved %, %.bus and %.storage", name)?
        }
        Some(Command::Open) => {
            let opened = files::open(rt, name, machine);
            say_done(rt, opened, b"opened %, %.bus and %.storage", name)?
        }
        Some(Command::Size) => machine.clear_behind(),
        Some(Command::Help) => help(rt)?,
        _ => {}
    }
    Ok(())
}

// One cycle or one command, and then the rows of the pane that it changed.
pub(crate) fn turn<P: Files + Print>(
    rt: &P,
    session: Session,
    source: &mut impl Read,
    terminal: Terminal,
    machine: &mut Machine,
) -> io::Result<Session> {
    let Some(line) = listen(rt, &session, source, terminal)? else {
        return Ok(session.end());
    };
    let before = machine.image;
    let Turned {
        session,
        said,
        obeyed,
        stores,
    } = machine.turn(session, line.as_bytes());
    if let Some(said) = said {
        say(rt, &said)?;
    }
    say_stores(rt, stores)?;
    let screen = Screen {
        rt,
        colour: terminal.colour,
    };
    if let Some(obeyed) = obeyed {
        perform(&screen, obeyed, machine)?;
    }
    let changed = screen.show_beside(&machine.image, BEFORE, &before)?;
    if !changed & obeyed.is_some_and(is_change) {
        tell(rt, b"nothing changed")?;
    }
    Ok(session)
}
