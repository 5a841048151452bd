// Why a call is refused, and the tests of what it is handed: the controller, the lengths of a bus and a storage, and a size.
ghost use Rattle.std.specs.Prelude.{◌≡◌, IfOk};
ghost use Rattle.controller.specs.Answers.{number_of, refusal_number};
ghost use Rattle.controller.specs.Refusals.{refusal_of, size_refusal, well_formed, well_size};

use crate::constants::{BUS_BYTES, LONGEST_READ_DELAY};
use crate::reu::Reu;
use regs::{STATUS, STATUS_VERSION};
use transfer::{EXPANSION_ADDRESS_LIMIT, chip_mark, is_size, well_dma};

// The length of an image, a field of it or of a controller that is handed over, the lengths of a bus and of a storage, a size that is none,
// and one that comes too late.
#[derive(Clone, Copy, Debug, PartialEq, Eq)]
pub enum Refusal {
    Length,
    Field,
    Bus,
    Storage,
    Size,
    Attached,
}

// The number that a refusal is answered by, as include/reu.h has it.
impl From<Refusal> for u32 {
    ghost from_gives = { λ refusal n. n ≡ refusal_number refusal };

    fn from(refusal: Refusal) -> u32 {
        match refusal {
            Refusal::Length => 1,
            Refusal::Field => 2,
            Refusal::Bus => 3,
            Refusal::Storage => 4,
            Refusal::Size => 5,
            Refusal::Attached => 6,
        }
    }
}

// A size that may be set, and STATUS with its mark.
fn well_size(size: u32, status: u8) -> bool
    ensures { result ≡ well_size size status }
{
    is_size(u64::from(size)) & ((status & STATUS_VERSION != 0) == chip_mark(size))
}

impl Reu {
    #[tactic(auto, unfolding(crate::specs::Refusals::well_formed))]
    pub fn well_formed(self) -> bool
        ensures { result ≡ well_formed self }
    {
        let held = well_dma(self.attached, self.dma);
        let sized = well_size(self.size, self.regs[STATUS]);
        (self.swap_read_delay <= LONGEST_READ_DELAY)
            & ((self.shadow_reu_addr < EXPANSION_ADDRESS_LIMIT) & (held & sized))
    }

    // The tests of a call that lends a bus and a storage of these lengths. A call that lends none passes the right one.
    #[tactic(auto, unfolding(crate::specs::Refusals::refusal_of))]
    pub(crate) fn test(self, bus: usize, storage: usize) -> Result<(), Refusal>
        ensures { number_of result ≡ refusal_of self bus storage }
    {
        if !self.well_formed() {
            return Err(Refusal::Field);
        }
        if bus != BUS_BYTES {
            return Err(Refusal::Bus);
        }
        // `as usize` widens, here and where a size is compared with a length: std has no `From<u32>` for it.
        if storage != self.size as usize {
            return Err(Refusal::Storage);
        }
        Ok(())
    }

    // The tests of setting a size, and the size. All 64 bits count.
    #[tactic(auto, unfolding(crate::specs::Refusals::size_refusal), using(transfer::proofs::Sizes::size_small))]
    pub(crate) fn test_size(self, size: u64) -> Result<u32, Refusal>
        ensures number { number_of result ≡ size_refusal self size }
        ensures value { IfOk result (λ tested. tested ≡ size) }
    {
        if !self.well_formed() {
            return Err(Refusal::Field);
        }
        let tested = match u32::try_from(size) {
            Ok(tested) if is_size(size) => tested,
            _ => return Err(Refusal::Size),
        };
        if self.attached {
            return Err(Refusal::Attached);
        }
        Ok(tested)
    }
}
