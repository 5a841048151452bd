// Two panes side by side: a row, and beside it what another machine has there, or what the row was before. A row that a machine has not has no
// bytes, and is no `None`: the two are compared and shown as any others.
ghost use Rattle.std.specs.Prelude.{◌≡◌, ◌≤◌, length};
ghost use Rattle.text.specs.Shown.{text_of};
ghost use Rattle.lines.specs.Beside.{Shows, beside_row, every_of, is_shown, labelled, marked, sign_of, two_rows};

use text::bytes::{after, first};
use text::line::Line;

// What stands between two panes, and so which rows are shown.
#[derive(Clone, Copy, PartialEq, Eq, Debug)]
pub enum Between {
    // `|`: every row.
    Every,
    // Another sign: only the rows that differ.
    Differing(u8),
}

// A row and what it was before.
pub const BEFORE: Between = Between::Differing(b'<');

// Where a row's label ends: what follows differs from machine to machine.
const LABEL: usize = 13;

impl Between {
    fn sign(self) -> u8
        ensures { result ≡ sign_of self }
    {
        match self {
            Between::Every => b'|',
            Between::Differing(sign) => sign,
        }
    }
}

// A row with a mark in front.
pub fn mark(sign: u8, row: &Line) -> Line
    ensures { text_of result ≡ marked sign (text_of row.now) }
{
    Line::new().put(sign).put(b' ').text(row.as_bytes())
}

// A row that a machine has not is its label alone.
fn label<'a>(row: &'a Line, other: &'a Line) -> &'a [u8]
    ensures value { result.now ≡ labelled (text_of row.now) (text_of other.now) }
    ensures fits { length result.now ≤ 160 }
{
    if row.is_empty() {
        return first(other.as_bytes(), LABEL);
    }
    row.as_bytes()
}

// A row and another beside it, whose label is not said again.
#[tactic(auto, using(crate::proofs::Whole::whole))]
fn two(row: &Line, between: Between, other: &Line) -> Line
    ensures { text_of result ≡ two_rows (text_of row.now) (sign_of between) (text_of other.now) }
{
    if other.is_empty() {
        return Line::from(row.as_bytes());
    }
    Line::from(label(row, other))
        .pad(44)
        .put(between.sign())
        .put(b' ')
        .text(after(other.as_bytes(), LABEL))
}

// A row is shown where the machine has it; with Every also where only the other has, and only where the two differ without.
fn is_shown(agree: bool, between: Between, none: bool) -> bool
    ensures { result ≡ is_shown agree (every_of between) none }
{
    match between {
        Between::Every => !(agree & none),
        Between::Differing(_) => !(agree | none),
    }
}

// The row of the pane to show, with `*` in front where the two differ; none where it is not shown.
#[tactic(auto, unfolding(crate::specs::Beside::beside_row))]
pub fn beside(row: &Line, between: Between, other: &Line) -> Option<Line>
    ensures { Shows result (beside_row (text_of row.now) between (text_of other.now)) }
{
    let agree = row.as_bytes() == other.as_bytes();
    if !is_shown(agree, between, row.is_empty()) {
        return None;
    }
    let both = two(row, between, other);
    if agree {
        return Some(mark(b' ', &both));
    }
    Some(mark(b'*', &both))
}
