// A monitor for the 8726: the registers, stepping by bus cycle, FF00, and saved machines, in a terminal.
#![tactic(auto)]

mod files;
mod help;
mod input;
mod machine;
mod output;
mod turn;

use console::session::Session;
use files::open_read;
use image::layout::IMAGE_BYTES;
use lines::memory::empty;
use lines::prompt::is_colour;
use machine::{BUS_BYTES, LARGEST_STORAGE, Machine};
use output::{say, tell};
use std::env::Env;
use std::io;
use std::io::{IsTerminal, Read};
use std::rt::Files;
use text::line::Line;
use turn::{Terminal, turn};

// An argument of more than 128 bytes counts as none, and so does one without any. std lays it into an array and says how long it is.
fn argument(rt: &impl Env, i: usize) -> Option<Line> {
    let mut buffer = [0u8; 128];
    let count = rt.arg(i, &mut buffer).ok()?;
    if count == 0 {
        return None;
    }
    Some(Line::from(&buffer[..count]))
}

// Until the session ends. It counts, as reading a line does, since a `loop` until then has no measure.
fn turns(
    rt: &(impl Files + Print),
    source: &mut impl Read,
    terminal: Terminal,
    machine: &mut Machine,
) -> io::Result<()> {
    let mut session = Session::new();
    for _ in 0..u64::MAX {
        session = turn(rt, session, source, terminal, machine)?;
        if session.ended {
            return Ok(());
        }
    }
    Ok(())
}

fn begin(
    rt: &(impl Files + Print),
    mut source: impl Read + IsTerminal + Drop,
    colour: bool,
    machine: &mut Machine,
) -> io::Result<()> {
    let typed = source.is_terminal();
    if typed {
        tell(
            rt,
            b"A new machine, not enabled yet. help lists the commands.",
        )?;
    }
    let terminal = Terminal {
        colour,
        echo: !typed,
    };
    turns(rt, &mut source, terminal, machine)
}

// Commands come from standard input, or from the file that an argument names: the first, or the one after --colour. It ends with an
// error where standard output takes no more.
fn main(rt: HostRuntime) -> io::Result<()> {
    let first = argument(&rt, 1);
    let colour = first
        .as_ref()
        .is_some_and(|word| is_colour(word.as_bytes()));
    let script = if colour { argument(&rt, 2) } else { first };
    // A new machine. `begin`, which is compiled for each kind of source, is lent it, so that there is one.
    let mut machine = Machine {
        image: empty::<IMAGE_BYTES>(),
        bus: empty::<BUS_BYTES>(),
        storage: empty::<LARGEST_STORAGE>(),
    };
    reu::reu_new(&mut machine.image);
    let Some(name) = script else {
        return begin(&rt, rt.stdin(), colour, &mut machine);
    };
    match open_read(&rt, name.as_bytes()) {
        Ok(file) => begin(&rt, file, colour, &mut machine),
        Err(_) => say(
            &rt,
            &Line::new().fill(b"cannot read the commands in %", name.as_bytes()),
        ),
    }
}
