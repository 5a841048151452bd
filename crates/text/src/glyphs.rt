// The digits that a line shows.
ghost use Rattle.std.specs.Prelude.{◌≡◌, ◌+◌, ◌-◌, cond};
ghost use Rattle.transfer.specs.Bytes.{bit, bit_of};
ghost use Rattle.text.specs.Shown.{hex_digit};

// A hexadecimal digit. The cast loses nothing: its character is ASCII.
pub(crate) fn hex_digit(value: u32) -> u8
    ensures { result ≡ hex_digit value }
{
    match char::from_digit(value, 16) {
        Some(digit) => digit.to_ascii_uppercase() as u8,
        None => b'?',
    }
}

// A character of a template: the bit of `byte` that it names, or itself.
pub(crate) fn shown(named: bool, next: u8, byte: u8) -> u8
    ensures { result ≡ cond named (48 + bit_of (bit byte (next - 48))) next }
{
    if !named {
        return next;
    }
    let number = u32::from(next.saturating_sub(b'0'));
    b'0' + byte.checked_shr(number).unwrap_or(0) % 2
}
