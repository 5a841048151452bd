// A line of text that is built piece by piece, by value or in place, and then shown. What does not fit is left out: so no `write!`, which fails there.
ghost use Rattle.std.specs.Prelude.{◌≤◌};

use crate::bytes::first;
use crate::glyphs::{hex_digit, shown};

pub const WIDTH: usize = 160;

// Its bytes have fixed room, since nothing here may run out of memory; and it is a value that may be used twice, which no `ArrayVec` is.
#[derive(Clone, Copy)]
pub struct Line {
    bytes: [u8; WIDTH],
    used: usize,
    ghost fits: { used ≤ 160 },
}

// A line that begins with a text: of a slice, and of a text in quotes, which is an array.
impl From<&[u8]> for Line {
    ghost use Rattle.std.specs.Prelude.{◌≡◌, []};
    ghost use Rattle.text.specs.Shown.{◌⊕◌, text_of};

    ghost from_gives = { λ s line. text_of line ≡ [] ⊕ s.now };

    fn from(s: &[u8]) -> Line {
        Line::new().text(s)
    }
}

impl<const N: usize> From<&[u8; N]> for Line {
    ghost use Rattle.std.specs.Prelude.{◌≡◌, []};
    ghost use Rattle.text.specs.Shown.{◌⊕◌, text_of};

    ghost from_gives = { λ s line. text_of line ≡ [] ⊕ s.now };

    fn from(s: &[u8; N]) -> Line {
        Line::from(s.as_slice())
    }
}

impl Line {
    ghost use Rattle.std.specs.Prelude.{◌≡◌, false, ◌∷◌, [], eqb, length};
    ghost use Rattle.text.specs.Shown.{◌⊕◌, bits_from, decimal_of, decimal_up_to, fill_from, hex_of, padded, text_of};

    pub fn new() -> Line
        ensures { text_of result ≡ [] }
    {
        Line {
            bytes: [b' '; WIDTH],
            used: 0,
        }
    }

    pub fn as_bytes(&self) -> &[u8]
        ensures value { result.now ≡ text_of self.now }
        ensures fits { length result.now ≤ 160 }
    {
        &self.bytes[..self.used]
    }

    pub fn is_empty(&self) -> bool
        ensures { result ≡ eqb (length (text_of self.now)) 0 }
    {
        self.used == 0
    }

    // ---- in place: by value a line would be copied for each byte

    pub fn push(&mut self, byte: u8)
        ensures { text_of self.new ≡ text_of self.old ⊕ (byte ∷ []) }
    {
        let at = self.used;
        if at >= WIDTH {
            return;
        }
        self.bytes[at] = byte;
        self.used = at + 1;
    }

    fn append(&mut self, s: &[u8])
        ensures { text_of self.new ≡ text_of self.old ⊕ s.now }
    {
        let used = self.used;
        let taken = first(s, WIDTH - used);
        let end = used + taken.len();
        self.bytes[used..end].copy_from_slice(taken);
        self.used = end;
    }

    // The last hexadecimal digits of a number.
    pub fn append_hex(&mut self, digits: u8, n: u32)
        ensures { text_of self.new ≡ text_of self.old ⊕ hex_of digits n }
    {
        if digits == 0 {
            return;
        }
        self.append_hex(digits - 1, n / 16);
        self.push(hex_digit(n % 16));
    }

    // ---- and by value

    #[inline(always)]
    pub fn put(mut self, byte: u8) -> Line
        ensures { text_of result ≡ text_of self ⊕ (byte ∷ []) }
    {
        self.push(byte);
        self
    }

    #[inline(always)]
    pub fn text(mut self, s: &[u8]) -> Line
        ensures { text_of result ≡ text_of self ⊕ s.now }
    {
        self.append(s);
        self
    }

    // Blanks up to a column.
    pub fn pad(self, column: usize) -> Line
        ensures { text_of result ≡ padded column (text_of self) }
    {
        let missing = column.saturating_sub(self.as_bytes().len());
        self.text(first(&[b' '; WIDTH], missing))
    }

    // A text in which `word` stands for each %.
    pub fn fill(self, template: &[u8], word: &[u8]) -> Line
        ensures { text_of result ≡ text_of self ⊕ fill_from template.now word.now }
    {
        let mut line = self;
        for &next in template {
            line = match next {
                b'%' => line.text(word),
                _ => line.put(next),
            };
        }
        line
    }

    // A text in which a digit right after = is a bit's number, and that bit of `byte` is shown in its place.
    pub fn bits(self, template: &[u8], byte: u8) -> Line
        ensures { text_of result ≡ text_of self ⊕ bits_from false template.now byte }
    {
        let mut line = self;
        let mut named = false;
        for &next in template {
            line = line.put(shown(named, next, byte));
            named = next == b'=';
        }
        line
    }

    // ---- numbers

    // The last hexadecimal digits.
    #[inline(always)]
    pub fn hex(mut self, digits: u8, n: u32) -> Line
        ensures { text_of result ≡ text_of self ⊕ hex_of digits n }
    {
        self.append_hex(digits, n);
        self
    }

    // In decimal.
    #[tactic(auto, using(crate::proofs::Decimals::decimals))]
    pub fn digits(self, n: u64) -> Line
        ensures { text_of result ≡ text_of self ⊕ decimal_up_to 20 n }
    {
        let mut digits = itoa::Buffer::new();
        self.text(digits.format(n).as_bytes())
    }

    // In decimal, as it is typed.
    pub fn decimal(self, n: u64) -> Line
        ensures { text_of result ≡ text_of self ⊕ decimal_of n }
    {
        self.put(b'+').digits(n)
    }
}
