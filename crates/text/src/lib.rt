// What the monitor shows and what it is told, as text: lines, words, numbers, and what is wrong with one that was typed.
#![tactic(auto)]

pub mod bytes;
pub mod faults;
mod glyphs;
pub mod line;
pub mod number;
pub mod words;
