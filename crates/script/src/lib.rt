// A script: cases that drive a controller by its exported calls, and compare what they answer and leave.
//
// A script is a list of rows, which name what is done and with which numbers:
//     Case(4)                                    begins case 4, on a new controller that is enabled
//     Write(address::COMMAND, Just(0x90))        writes $90 to address $DF01
//     Shows(register::STATUS, Just(0x50))        asks that `debug_register` gives $50 for register 0
// A row agrees if each call in it answers as it should. A refused call does not, unless the row asks for the number of
// that refusal, nor does a row with a place or a value that its operation cannot take.
//
// A script is played for each line of a table. A line says which cases to play, and has columns that a row may take
// for a number or add to one:
//     Write(address::MASK, Column(0))            writes the line's first column to the mask
//     Write(address::COMMAND, Plus(0x90, 1))     writes $90 plus its second column to COMMAND
//     CaseWhere(Column(0), Just(2))              begins a case, for the lines whose first column is 2
#![tactic(auto)]

pub mod address;
mod controller_rows;
mod cycle_rows;
mod lent_rows;
mod machine;
pub mod register;
mod rows;

ghost use Rattle.std.specs.Prelude.{◌≡◌, replicate};

pub use machine::Machine;
pub use rows::{BA_HIGH, BA_LOW, Grant, Inputs, Line, Number, PHI1_LOW, Row};
pub use transfer::ReuBusAction;

// The bytes of a bus, and of the largest storage.
pub const BUS_BYTES: usize = 0x1_0000;

pub const STORAGE_BYTES: usize = 524_288;

// A bus or a storage for a script: an array, since these programs take no heap. A function and no literal, since the check of a caller counts a
// literal's bytes one by one.
pub fn zeros<const N: usize>() -> [u8; N]
    ensures { result ≡ replicate N 0 }
{
    [0; N]
}
