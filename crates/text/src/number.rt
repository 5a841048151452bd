// Numbers as authors type them: hexadecimal with an optional $, decimal with a leading +.
ghost use Rattle.std.specs.Prelude.{◌≡◌, ◌≤◌};
ghost use Rattle.text.specs.Typed.{digits_of, number_of};

// Why a text is no number.
#[derive(Clone, Copy, PartialEq, Eq, Debug)]
pub enum NumberFault {
    Bad,
    TooLarge,
}

// A number has at most 24 bits.
const LARGEST: u32 = 0xFFFFFF;

// The digits of `s`, in a base, which `to_digit` needs between these bounds. Private: the callers say 10 or 16.
fn digits_of(s: &[u8], base: u32) -> Result<u32, NumberFault>
    requires lower_bound { 2 ≤ base }
    requires upper_bound { base ≤ 16 }
    ensures { result ≡ digits_of base s.now 0 }
{
    if s.is_empty() {
        return Err(NumberFault::Bad);
    }
    let mut value = 0;
    for &byte in s {
        let digit = char::from(byte).to_digit(base).ok_or(NumberFault::Bad)?;
        value = value * base + digit;
        if LARGEST < value {
            return Err(NumberFault::TooLarge);
        }
    }
    Ok(value)
}

#[tactic(auto, unfolding(crate::specs::Typed::number_of))]
pub fn value_of(s: &[u8]) -> Result<u32, NumberFault>
    ensures { result ≡ number_of s.now }
{
    match s {
        [b'+', digits @ ..] => digits_of(digits, 10),
        [b'$', digits @ ..] => digits_of(digits, 16),
        _ => digits_of(s, 16),
    }
}
