// Addresses of registers, as a row names them: a pair by its low byte.
use crate::Number;

pub const STATUS: Number = Number::Just(0xDF00);

pub const COMMAND: Number = Number::Just(0xDF01);

pub const C64: Number = Number::Just(0xDF02);

pub const BANK: Number = Number::Just(0xDF06);

pub const LENGTH: Number = Number::Just(0xDF07);

pub const MASK: Number = Number::Just(0xDF09);

pub const CONTROL: Number = Number::Just(0xDF0A);
