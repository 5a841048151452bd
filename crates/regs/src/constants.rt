// The 8726's registers and bits. A register is a number and no case of an enum: it is an address's low bits and a place in the array.

pub const REGISTER_COUNT: usize = 11;

pub const STATUS: usize = 0;

pub const COMMAND: usize = 1;

pub const C64_ADDRESS_LOW: usize = 2;

pub const C64_ADDRESS_HIGH: usize = 3;

pub const REU_ADDRESS_LOW: usize = 4;

pub const REU_ADDRESS_HIGH: usize = 5;

pub const REU_ADDRESS_BANK: usize = 6;

pub const TRANSFER_LENGTH_LOW: usize = 7;

pub const TRANSFER_LENGTH_HIGH: usize = 8;

pub const INTERRUPT_MASK: usize = 9;

pub const ADDRESS_CONTROL: usize = 10;

// The address bits that select a register.
pub(crate) const REGISTER_INDEX_MASK: u16 = 0x1F;

pub const STATUS_VERSION: u8 = 0x10;

pub const STATUS_VERIFY_ERROR: u8 = 0x20;

pub(crate) const STATUS_END_OF_BLOCK: u8 = 0x40;

pub const STATUS_IRQ_PENDING: u8 = 0x80;

pub(crate) const STATUS_EVENT_MASK: u8 = STATUS_VERIFY_ERROR
    | STATUS_END_OF_BLOCK
    | STATUS_IRQ_PENDING;

pub const COMMAND_FF00_DISABLE: u8 = 0x10;

pub(crate) const COMMAND_AUTOLOAD: u8 = 0x20;

pub const COMMAND_EXECUTE: u8 = 0x80;

pub(crate) const COMMAND_COMPLETION_MASK: u8 = 0x7F;

pub(crate) const INTERRUPT_VERIFY_ENABLE: u8 = 0x20;

pub(crate) const INTERRUPT_END_OF_BLOCK_ENABLE: u8 = 0x40;

pub(crate) const INTERRUPT_GLOBAL_ENABLE: u8 = 0x80;

pub const INTERRUPT_UNUSED_READ_HIGH: u8 = 0x1F;

pub(crate) const ADDRESS_CONTROL_FIX_REU: u8 = 0x40;

pub(crate) const ADDRESS_CONTROL_FIX_C64: u8 = 0x80;

pub const ADDRESS_CONTROL_UNUSED_READ_HIGH: u8 = 0x3F;

// The five bank bits that the 1764 does not connect.
pub const BANK_UNUSED_READ_HIGH: u8 = 0xF8;

pub const UNUSED_REGISTER_VALUE: u8 = 0xFF;
