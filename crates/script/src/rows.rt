// The rows of a script, and the lines for which it is played.
ghost use Rattle.std.specs.Prelude.{◌≡◌, ◌<◌, ◌^◌};
ghost use Rattle.script.specs.Rows.{column_of, grant_of, number_of};

use transfer::ReuBusAction;

// A line: the number of its table, by which its cases are chosen, and its columns, which a row may take for numbers. A tuple and no struct with
// named fields: so a line of a table is one line of text.
#[derive(Clone, Copy)]
pub struct Line<'a>(pub u32, pub &'a [u16]);

// A number in a row: one that stands there, a column of the line, or both, added. Columns count from 0.
#[derive(Clone, Copy)]
pub enum Number {
    Just(u32),
    Column(usize),
    Plus(u32, usize),
}

// A grant in a row: one by its name, or the number that `bus_action` answers for it, which a column may have. A number that it never answers
// does not agree.
#[derive(Clone, Copy)]
pub enum Grant {
    Is(ReuBusAction),
    Numbered(Number),
}

// What a bus cycle finds: whether BA is high, and whether it is at phi 1.
#[derive(Clone, Copy)]
pub struct Inputs {
    pub ba_high: bool,
    pub ba_high_phi1: bool,
}

pub const BA_HIGH: Inputs = Inputs {
    ba_high: true,
    ba_high_phi1: true,
};

pub const BA_LOW: Inputs = Inputs {
    ba_high: false,
    ba_high_phi1: true,
};

pub const PHI1_LOW: Inputs = Inputs {
    ba_high: true,
    ba_high_phi1: false,
};

// A row. Where it has two numbers, the first is a place.
#[derive(Clone, Copy)]
pub enum Row {
    // A case begins, on a new controller that is enabled. It is played for the lines of the table of its number.
    Case(u32),
    // A case that is played for the lines for which the two numbers are equal, whatever their table.
    CaseWhere(Number, Number),
    // A new controller, never enabled.
    New,
    Reset,
    Ff00,
    // A write of a byte to an address, or of a low byte to it and of the high byte to the next.
    Write(Number, Number),
    WritePair(Number, Number),
    // All 24 bits of the expansion address: the bank, which is written last, and the 16 bits below it.
    Expansion(Number, Number),
    // A read of the address gives the value.
    Reads(Number, Number),
    // `debug_register` gives the value, as one byte or as a low and a high one.
    Shows(Number, Number),
    ShowsPair(Number, Number),
    // The interrupt level: bit 1 of the image's flags.
    LevelIs(Number),
    // A size is set, in KiB.
    Size(Number),
    // A byte of the bus or of the storage is set, or has the value.
    Bus(Number, Number),
    BusIs(Number, Number),
    Storage(Number, Number),
    StorageIs(Number, Number),
    // The controller is enabled.
    Enable,
    // Cycles from the numbered one on, as many as the second number says: each answers 1, or each answers 0.
    Ticks(Inputs, Number, Number),
    Idle(Inputs, Number, Number),
    // One cycle: it answers the value, with what L2 adds to it.
    Answers(Inputs, Number, Number),
    // One cycle in two calls: `bus_action` answers the grant, and `tick_dma` follows on Transfer.
    Grants(Inputs, Number, Grant),
}

impl Number {
    // The number, with its column filled in from the line. A column that the line has not is 0.
    pub(crate) fn filled(self, line: &Line) -> u64
        ensures value { result ≡ number_of line.now self }
        ensures bound { result < 2 ^ 33 }
    {
        match self {
            Number::Just(number) => u64::from(number),
            Number::Column(k) => u64::from(line.column(k)),
            Number::Plus(number, k) => u64::from(number) + u64::from(line.column(k)),
        }
    }
}

impl Grant {
    // The number that `bus_action` answers for the grant.
    pub(crate) fn numbered(self, line: &Line) -> u64
        ensures { result ≡ grant_of line.now self }
    {
        match self {
            Grant::Is(action) => u64::from(u32::from(action)),
            Grant::Numbered(number) => number.filled(line),
        }
    }
}

impl Line<'_> {
    fn column(&self, k: usize) -> u16
        ensures { result ≡ column_of self.now k }
    {
        self.1.get(k).copied().unwrap_or(0)
    }
}
