// The monitor's lines: what may be typed and what is wrong with one, the words of memory and of time, and two panes side by side. Nothing
// here needs the controller.
#![tactic(auto)]

pub mod beside;
pub mod clock;
pub mod commands;
pub mod files;
pub mod keys;
pub mod memory;
pub mod prompt;
pub mod registers;
mod texts;
