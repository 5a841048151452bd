// Rows on the controller alone. The exported calls answer numbers, as the C interface has them: 0 says that a call did its work.
// A row's numbers are below 2^33, so that the one after an address fits. The two rows here that need it ask for what they need: a type of such
// numbers would be opened again by each of the others, which ask for nothing.
ghost use Rattle.std.specs.Prelude.{◌≡◌, ◌+◌, ◌<◌, ◌^◌};
ghost use Rattle.script.specs.Operations.{expansion_row, is_level, reads_row, is_shown, is_pair_shown, write_pair_row, write_row};

use crate::machine::Machine;
use image::layout;

#[tactic(auto, unfolding(crate::specs::Operations::write_row))]
pub(crate) fn write(image: &mut [u8], address: u64, value: u64) -> bool
    ensures { (result, image.new) ≡ write_row address value image.old }
{
    let (Ok(address), Ok(value)) = (u16::try_from(address), u8::try_from(value)) else {
        return false;
    };
    reu::reu_write(image, address, value) == 0
}

pub(crate) fn write_pair(image: &mut [u8], address: u64, value: u64) -> bool
    requires { address + 1 < 2 ^ 64 }
    ensures { (result, image.new) ≡ write_pair_row address value image.old }
{
    let low = write(image, address, value % 256);
    low & write(image, address + 1, value / 256)
}

pub(crate) fn write_expansion(image: &mut [u8], bank: u64, value: u64) -> bool
    ensures { (result, image.new) ≡ expansion_row bank value image.old }
{
    let low = write_pair(image, 0xDF04, value);
    low & write(image, 0xDF06, bank)
}

// What a read answers, compared with a number: no equality of a type.
#[tactic(auto, unfolding(crate::specs::Operations::reads_row))]
pub(crate) fn reads(image: &mut [u8], address: u64, value: u64) -> bool
    ensures { (result, image.new) ≡ reads_row address value image.old }
{
    let Ok(address) = u16::try_from(address) else {
        return false;
    };
    u64::from(reu::reu_read(image, address)) == value
}

impl Machine<'_> {
    pub(crate) fn shows(&self, index: u64, value: u64) -> bool
        ensures { result ≡ is_shown index value self.now.image.now }
    {
        u64::from(reu::reu_debug_register(self.image, index)) == value
    }

    pub(crate) fn shows_pair(&self, index: u64, value: u64) -> bool
        requires { index + 1 < 2 ^ 64 }
        ensures { result ≡ is_pair_shown index value self.now.image.now }
    {
        self.shows(index, value % 256) & self.shows(index + 1, value / 256)
    }

    #[tactic(auto, unfolding(crate::specs::Operations::is_level))]
    pub(crate) fn level_is(&self, value: u64) -> bool
        ensures { result ≡ is_level value self.now.image.now }
    {
        self.image
            .get(layout::FLAGS)
            .is_some_and(|flags| u64::from(*flags & 2 != 0) == value)
    }
}
