// The saved machine: a controller as an image, and back. `layout` says where each field stands.
#![tactic(auto)]

ghost use Rattle.std.specs.Prelude.{◌≡◌};
ghost use Rattle.controller.specs.Answers.{number_of};
ghost use Rattle.image.specs.Open.{open_image, opened, store_image};

use controller::{Refusal, Reu};
use layout::IMAGE_BYTES;

pub mod in_place;
pub mod layout;
mod pack;
pub mod unpack;

// The controller that an image holds.
#[tactic(auto, unfolding(crate::specs::Open::open_image, controller::specs::Refusals::checked))]
#[inline(always)]
pub fn open(image: &[u8]) -> Result<Reu, Refusal>
    ensures { opened result ≡ open_image image.now }
{
    let fields: &[u8; IMAGE_BYTES] = image.try_into().map_err(|_| Refusal::Length)?;
    if unpack::accepted(fields) {
        Ok(unpack::controller_at(fields))
    } else {
        Err(Refusal::Field)
    }
}

// Lays the image of a controller over a slice of an image's length. Refuses a slice of another length, and a controller that
// opening would refuse: then the slice stays as it is. What elements it ends with is told of `as_mut_array`, and not of `try_into`.
#[tactic(auto, unfolding(crate::specs::Open::store_image, controller::specs::Refusals::checked))]
pub fn store(out: &mut [u8], reu: Reu) -> Result<(), Refusal>
    ensures { (number_of result, out.new) ≡ store_image reu out.old }
{
    let fields = out.as_mut_array::<IMAGE_BYTES>().ok_or(Refusal::Length)?;
    if reu.well_formed() {
        pack::pack(fields, reu);
        Ok(())
    } else {
        Err(Refusal::Field)
    }
}
