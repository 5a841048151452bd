// Registers as `debug_register` counts them, as a row names them: a pair by its low byte.
use crate::Number;

pub const STATUS: Number = Number::Just(0);

pub const COMMAND: Number = Number::Just(1);

pub const C64: Number = Number::Just(2);

pub const EXPANSION: Number = Number::Just(4);

pub const BANK: Number = Number::Just(6);

pub const LENGTH: Number = Number::Just(7);

pub const MASK: Number = Number::Just(9);

pub const CONTROL: Number = Number::Just(10);
