// What a script is played on, and how. The exported calls answer numbers, as the C interface has them: 0 says that a call did its work.
ghost use Rattle.std.specs.Prelude.{◌≡◌};
ghost use Rattle.script.specs.Lent.{Plays};
ghost use Rattle.script.specs.Lines.{is_on, play_line, play_table};
ghost use Rattle.script.specs.Operations.{begin_row, enable_row, is_byte, row_of};

use crate::controller_rows::{reads, write, write_expansion, write_pair};
use crate::lent_rows::{has_byte, set_byte};
use crate::rows::{Line, Number, Row};

// A controller's image, a bus and a storage, as the host lends them.
#[derive(Drop)]
pub struct Machine<'a> {
    pub image: &'a mut [u8],
    pub bus: &'a mut [u8],
    pub storage: &'a mut [u8],
}

// Whether a row is played, by whether the one before it was: a case decides for its rows.
fn is_on(before: bool, row: &Row, line: &Line) -> bool
    ensures { result ≡ is_on line.now before row.now }
{
    match *row {
        Row::Case(number) => number == line.0,
        Row::CaseWhere(left, right) => left.filled(line) == right.filled(line),
        _ => before,
    }
}

impl Machine<'_> {
    fn enable(&mut self) -> bool
        ensures { Plays enable_row self.old result self.new }
    {
        reu::reu_set_enabled(self.image, self.storage, 1) == 0
    }

    fn begin(&mut self) -> bool
        ensures { Plays begin_row self.old result self.new }
    {
        let made = reu::reu_new(self.image) == 0;
        made & self.enable()
    }

    // A machine that is only looked at, here and in the next. Tried as `has_byte(self.bus, ..)` in `agrees`: the proof did not close, since what a
    // call looks at behind a `&mut` is unknown afterwards.
    fn bus_is(&self, place: u64, value: u64) -> bool
        ensures { result ≡ is_byte place value self.now.bus.now }
    {
        has_byte(self.bus, place, value)
    }

    fn storage_is(&self, place: u64, value: u64) -> bool
        ensures { result ≡ is_byte place value self.now.storage.now }
    {
        has_byte(self.storage, place, value)
    }

    // Plays a row: whether it agrees.
    #[tactic(auto, unfolding(crate::specs::Operations::row_of))]
    fn agrees(&mut self, row: &Row, line: &Line) -> bool
        ensures { Plays (row_of line.now row.now) self.old result self.new }
    {
        let filled = |number: Number| number.filled(line);
        match *row {
            Row::Case(_) | Row::CaseWhere(_, _) => self.begin(),
            Row::New => reu::reu_new(self.image) == 0,
            Row::Reset => reu::reu_reset(self.image, 0) == 0,
            Row::Ff00 => reu::reu_trigger_ff00(self.image) == 0,
            Row::Write(place, value) => write(self.image, filled(place), filled(value)),
            Row::WritePair(place, value) => write_pair(self.image, filled(place), filled(value)),
            Row::Expansion(bank, low) => write_expansion(self.image, filled(bank), filled(low)),
            Row::Reads(place, value) => reads(self.image, filled(place), filled(value)),
            Row::Shows(place, value) => self.shows(filled(place), filled(value)),
            Row::ShowsPair(place, value) => self.shows_pair(filled(place), filled(value)),
            Row::LevelIs(value) => self.level_is(filled(value)),
            Row::Size(kib) => reu::reu_set_size(self.image, 1024 * filled(kib)) == 0,
            Row::Bus(place, value) => set_byte(self.bus, filled(place), filled(value)),
            Row::BusIs(place, value) => self.bus_is(filled(place), filled(value)),
            Row::Storage(place, value) => set_byte(self.storage, filled(place), filled(value)),
            Row::StorageIs(place, value) => self.storage_is(filled(place), filled(value)),
            Row::Enable => self.enable(),
            Row::Ticks(inputs, first, count) => self.ticks(inputs, filled(first), filled(count), 1),
            Row::Idle(inputs, first, count) => self.ticks(inputs, filled(first), filled(count), 0),
            Row::Answers(inputs, cycle, answer) => self.answers(
                inputs,
                filled(cycle),
                filled(answer),
            ),
            Row::Grants(inputs, cycle, grant) => self.grants(
                inputs,
                filled(cycle),
                grant.numbered(line),
            ),
        }
    }

    // Plays the cases of one line: there are some, and each row of them agrees.
    #[tactic(auto, unfolding(crate::specs::Lines::chosen, crate::specs::Lines::play_rows))]
    fn play(&mut self, script: &[Row], line: &Line) -> bool
        ensures { Plays (play_line script.now line.now) self.old result self.new }
    {
        let mut on = false;
        let mut found = false;
        let mut agree = true;
        for row in script {
            on = is_on(on, row, line);
            found |= on;
            if on {
                agree &= self.agrees(row, line);
            }
        }
        found & agree
    }

    // Plays a script for each line of a table: how many lines agree.
    #[tactic(auto, unfolding(crate::specs::Lines::count_lines))]
    pub fn play_table(&mut self, script: &[Row], table: &[Line]) -> usize
        ensures { Plays (play_table script.now table.now) self.old result self.new }
    {
        let mut agreeing = 0;
        for line in table {
            agreeing += usize::from(self.play(script, line));
        }
        agreeing
    }
}
