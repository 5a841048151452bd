// The claims about whole runs of the exported calls, one about bytes completed one after another, one about the stores of a step, and those about
// saved machines. Each function does nothing: its `ensures` is the claim.
#![tactic(auto)]

ghost use Rattle.claims.specs.AutoloadStores.{AutoloadStores};
ghost use Rattle.claims.specs.ChipSize.{ChipSize};
ghost use Rattle.claims.specs.GrantedCycles.{GrantedCycles};
ghost use Rattle.claims.specs.PassedTop.{PassedTop};
ghost use Rattle.claims.specs.RemainingBytes.{RemainingBytes};
ghost use Rattle.claims.specs.SavedMachine.{EveryStateOpens, RoundTrips};
ghost use Rattle.claims.specs.Sessions.{Sessions};
ghost use Rattle.claims.specs.SwapOnScreen.{SwapOnScreen};
ghost use Rattle.claims.specs.SwapTwice.{SwapTwice};

// Demand 3: a block swapped twice is back, and a run that stays idle ends with the same bytes.
pub fn swap_twice()
    ensures { SwapTwice }
{}

// Packing a controller and opening an image are each other's inverse.
pub fn round_trips()
    ensures { RoundTrips }
{}

// Every image that accepted calls reach from a new controller is accepted, and opens as the controller that it packs, whatever bus and
// storage each call is lent; and an accepted call on an accepted image leaves one.
pub fn every_state_opens()
    ensures { EveryStateOpens }
{}

// The recorded sessions R1 to R14 and R16.
pub fn recorded_sessions()
    ensures { Sessions }
{}

// The count of granted cycles in the image is the number of cycle calls that were granted since the last new, reset or start with storage.
pub fn granted_cycles()
    ensures { GrantedCycles }
{}

// Of bytes completed one after another, as many as there are addresses or fewer, exactly one reports that the address passed its top, if it did.
pub fn passed_top()
    ensures { PassedTop }
{}

// Each remaining from 1 to 65,536 has its own pair of bytes in an image and comes back from it, and each pair of bytes has its own remaining.
pub fn remaining_bytes()
    ensures { RemainingBytes }
{}

// Exactly three sizes can be set, each with its number of address lines. Over any list of the sixteen calls the size is the one set last, and bit 4 of
// STATUS its mark.
pub fn chip_size()
    ensures { ChipSize }
{}

// A step that ends a command with Autoload hands out registers 2 to 8 in that order with their shadows' bytes, and any other none; made on the registers
// before, they give registers 2 to 8 after. And which ticks and cycles end a command.
pub fn autoload_stores()
    ensures { AutoloadStores }
{}

// A swap while BA falls and rises: at its end the block has changed places if no low call stands alone, from a start by COMMAND or by FF00, at each
// size; and with BA high long enough, as on a screen, it ends. And R16, which has a low call alone and loses a byte.
pub fn swap_on_screen()
    ensures { SwapOnScreen }
{}
