// The exported calls: a controller by its image, and the bus and the storage that the host lends.
// Each answers a value, or 16,777,216 times a refusal number, and then nothing that is lent has changed.
// Names, flags as numbers, and bus and storage as two slices are as include/reu.h gives them to C.
#![tactic(auto)]

ghost use Rattle.std.specs.Prelude.{◌≡◌, ℕ, List};
ghost use Rattle.controller.specs.Answers.{Answer, answer_of, refusal_number, step_answer_of};
ghost use Rattle.controller.specs.Calls.{numbered};
ghost use Rattle.controller.specs.TickDma.{Ticked};
ghost use Rattle.controller.specs.declared.reu.Reu.{Reu};
ghost use Rattle.reu.specs.Exports.{change, change_both, change_storage, look, refusal, reu_bus_action, reu_c64_access, reu_capacity_bytes, reu_cpu_ready, reu_cycle, reu_debug_register, reu_dma_active, reu_new, reu_read, reu_reset, reu_set_enabled, reu_set_size, reu_storage_present, reu_tick_dma, reu_trigger_ff00, reu_write};
ghost use Rattle.reu.specs.Logged.{logged_both, logged_cycle};
ghost use Rattle.reu.specs.Inner.{Gives, GivesBoth, GivesStored, Keeps, KeepsBoth, KeepsStored, Kept, Shows, ended};

mod direct;

use controller::{Answered, Refusal, Reu, Step};
use regs::Stores;

// An answer is this times the refusal number, or a value.
const REFUSAL_UNIT: u32 = 16_777_216;

// What a call that is lent bus and storage answers, and which registers it has stored, in their order, where it ended a command with Autoload.
#[derive(Clone, Copy, Debug, PartialEq, Eq)]
pub struct Logged {
    pub answer: u32,
    pub stores: Stores,
}

fn refused(reason: Refusal) -> u32
    ensures { result ≡ refusal (refusal_number reason) }
{
    REFUSAL_UNIT * u32::from(reason)
}

// A call that looks at the controller of an image. The image has been tested, so the controller is in range, and no call of its tests it again.
// That a closure may be called is asked here and below: no type says it.
#[inline(always)]
fn look<F: FnOnce(Reu) -> u32>(image: &[u8], value: F) -> u32
    requires { F.IsAlwaysCallable value }
    ensures { (f : Reu → Answer) → Shows F.post value f → result ≡ look f image.now }
{
    match image::open(image) {
        Ok(reu) => value(reu),
        Err(reason) => refused(reason),
    }
}

// A call that changes the controller of an image, which is laid down again.
#[tactic(auto, using(crate::proofs::Families::kept_by))]
fn change<F: FnOnce(Reu) -> Result<Answered<u32>, Refusal>>(image: &mut [u8], call: F) -> u32
    requires callable { F.IsAlwaysCallable call }
    requires keeps { Keeps F.post call }
    ensures { (f : Reu → Answer) → Gives F.post call f → (result, image.new) ≡ change f image.old }
{
    match image::open(image) {
        Ok(reu) => finish(image, call(reu)),
        Err(reason) => refused(reason),
    }
}

// The same of a call that is lent the storage too. It is handed on to the call: after the call of a generic function nothing is known of
// what its closure wrote in what it captured. Tried as one helper with a type parameter for what is lent, which may be nothing: the proof did not
// close, since a value of such a type has no `.old` and no `.new`, so that the contract cannot say what a slice ends as.
#[tactic(auto, using(crate::proofs::Families::kept_by))]
fn change_storage<F: FnOnce(Reu, &mut [u8]) -> Result<Answered<u32>, Refusal>>(
    image: &mut [u8],
    storage: &mut [u8],
    call: F,
) -> u32
    requires callable { F.IsAlwaysCallable call }
    requires keeps { KeepsStored F.post call }
    ensures { (f : Reu → List ℕ → (Answer × List ℕ)) → GivesStored F.post call f → (result, image.new, storage.new) ≡ change_storage f image.old storage.old }
{
    match image::open(image) {
        Ok(reu) => finish(image, call(reu, storage)),
        Err(reason) => refused(reason),
    }
}

// And of one that is lent bus and storage, with its stores beside its answer.
fn change_both<F: FnOnce(Reu, &mut [u8], &mut [u8]) -> Result<Answered<Step>, Refusal>>(
    image: &mut [u8],
    bus: &mut [u8],
    storage: &mut [u8],
    call: F,
) -> Logged
    requires callable { F.IsAlwaysCallable call }
    requires keeps { KeepsBoth F.post call }
    ensures { (f : Reu → List ℕ → List ℕ → Ticked) → GivesBoth F.post call f → (result, image.new, bus.new, storage.new) ≡ logged_both f image.old bus.old storage.old }
{
    match image::open(image) {
        Ok(reu) => {
            let answer = call(reu, bus, storage);
            Logged {
                stores: handed(answer),
                answer: finish(image, numbered(answer)),
            }
        }
        Err(reason) => Logged {
            answer: refused(reason),
            stores: None,
        },
    }
}

// The end of a call that changes the controller: the image is laid down, unless the call was refused. What a call leaves is in range, so
// storing it is never refused.
#[tactic(auto, using(image::proofs::Opening::store_good))]
fn finish(image: &mut [u8], answer: Result<Answered<u32>, Refusal>) -> u32
    requires { Kept answer image.old }
    ensures { (result, image.new) ≡ ended answer image.old }
{
    match answer {
        Ok(done) => match image::store(image, done.reu) {
            Ok(()) => done.value,
            Err(reason) => refused(reason),
        },
        Err(reason) => refused(reason),
    }
}

// The stores that a step hands out; a refused one has none.
fn handed(answer: Result<Answered<Step>, Refusal>) -> Stores
    ensures { (u : Reu) → result ≡ (step_answer_of u answer).stores }
{
    answer.map_or(None, |done| done.value.stores)
}

// A step's answer with its value as a number.
fn numbered(answer: Result<Answered<Step>, Refusal>) -> Result<Answered<u32>, Refusal>
    ensures { (u : Reu) → answer_of u result ≡ numbered (step_answer_of u answer) }
{
    answer.map(Answered::from)
}

#[tactic(auto, using(crate::proofs::Families::stored_new))]
#[unsafe(no_mangle)]
pub extern "C" fn reu_new(image: &mut [u8]) -> u32
    ensures { (result, image.new) ≡ reu_new image.old }
{
    match image::store(image, Reu::new()) {
        Ok(()) => 0,
        Err(reason) => refused(reason),
    }
}

#[tactic(auto, using(crate::proofs::Keeping::reset_keeps))]
#[unsafe(no_mangle)]
pub extern "C" fn reu_reset(image: &mut [u8], hard_reset: u32) -> u32
    ensures { (result, image.new) ≡ reu_reset image.old hard_reset }
{
    change(image, |reu| reu.reset(hard_reset != 0))
}

#[tactic(auto, using(crate::proofs::Keeping::set_size_keeps))]
#[unsafe(no_mangle)]
pub extern "C" fn reu_set_size(image: &mut [u8], size: u64) -> u32
    ensures { (result, image.new) ≡ reu_set_size image.old size }
{
    change(image, |reu| reu.set_size(size))
}

#[unsafe(no_mangle)]
pub extern "C" fn reu_set_enabled(image: &mut [u8], storage: &mut [u8], enabled: u32) -> u32
    ensures { (result, image.new, storage.new) ≡ reu_set_enabled image.old storage.old enabled }
{
    change_storage(
        image,
        storage,
        |reu, storage| reu.set_enabled(storage, enabled != 0),
    )
}

#[tactic(auto, unfolding(controller::specs::Calls::storage_present_call), using(crate::proofs::Families::served))]
#[unsafe(no_mangle)]
pub extern "C" fn reu_storage_present(image: &[u8]) -> u32
    ensures { result ≡ reu_storage_present image.now }
{
    look(image, |reu| u32::from(reu.attached))
}

#[tactic(auto, unfolding(controller::specs::Calls::capacity_bytes_call), using(crate::proofs::Families::served))]
#[unsafe(no_mangle)]
pub extern "C" fn reu_capacity_bytes(image: &[u8]) -> u32
    ensures { result ≡ reu_capacity_bytes image.now }
{
    look(image, |reu| reu.capacity())
}

#[tactic(auto, using(crate::proofs::Keeping::trigger_keeps))]
#[unsafe(no_mangle)]
pub extern "C" fn reu_trigger_ff00(image: &mut [u8]) -> u32
    ensures { (result, image.new) ≡ reu_trigger_ff00 image.old }
{
    change(image, |reu| reu.trigger_ff00())
}

#[unsafe(no_mangle)]
pub extern "C" fn reu_read(image: &mut [u8], addr: u16) -> u32
    ensures { (result, image.new) ≡ reu_read image.old addr }
{
    direct::read(image, addr)
}

#[unsafe(no_mangle)]
pub extern "C" fn reu_write(image: &mut [u8], addr: u16, value: u8) -> u32
    ensures { (result, image.new) ≡ reu_write image.old addr value }
{
    if direct::starts(addr, value) {
        started(image, addr, value)
    } else {
        direct::write(image, addr, value)
    }
}

// A write that begins a command. It stays a function of its own: within the call it would take registers that every write would have to save.
#[tactic(auto, using(crate::proofs::Keeping::write_keeps))]
#[inline(never)]
fn started(image: &mut [u8], addr: u16, value: u8) -> u32
    ensures { (result, image.new) ≡ reu_write image.old addr value }
{
    change(image, |reu| reu.write(addr, value))
}

#[tactic(auto, unfolding(controller::specs::Calls::dma_active_call), using(crate::proofs::Families::served))]
#[unsafe(no_mangle)]
pub extern "C" fn reu_dma_active(image: &[u8]) -> u32
    ensures { result ≡ reu_dma_active image.now }
{
    look(image, |reu| u32::from(reu.dma.is_some()))
}

#[unsafe(no_mangle)]
pub extern "C" fn reu_bus_action(
    image: &mut [u8],
    storage: &mut [u8],
    ba_high: u32,
    ba_high_phi1: u32,
    cycle: u64,
) -> u32
    ensures { (result, image.new, storage.new) ≡ reu_bus_action image.old storage.old ba_high ba_high_phi1 cycle }
{
    change_storage(image, storage, |reu, storage| {
        reu.bus_action(storage, ba_high != 0, ba_high_phi1 != 0, cycle)
    })
}

#[tactic(auto, using(crate::proofs::Keeping::cpu_ready_keeps))]
#[unsafe(no_mangle)]
pub extern "C" fn reu_cpu_ready_after_dma(image: &mut [u8], ba_high: u32) -> u32
    ensures { (result, image.new) ≡ reu_cpu_ready image.old ba_high }
{
    change(image, |reu| reu.cpu_ready_after_dma(ba_high != 0))
}

#[unsafe(no_mangle)]
pub extern "C" fn reu_debug_register(image: &[u8], index: u64) -> u32
    ensures { result ≡ reu_debug_register image.now index }
{
    direct::debug(image, index)
}

#[tactic(auto, unfolding(controller::specs::Calls::c64_access_call), using(crate::proofs::Families::served))]
#[unsafe(no_mangle)]
pub extern "C" fn reu_c64_access(image: &[u8]) -> u32
    ensures { result ≡ reu_c64_access image.now }
{
    look(image, |reu| u32::from(reu.next_access()))
}

#[unsafe(no_mangle)]
pub extern "C" fn reu_tick_dma(
    image: &mut [u8],
    bus: &mut [u8],
    storage: &mut [u8],
    cycle: u64,
    ba_low: u32,
) -> u32
    ensures { (result, image.new, bus.new, storage.new) ≡ reu_tick_dma image.old bus.old storage.old cycle ba_low }
{
    change_both(image, bus, storage, |reu, bus, storage| {
        reu.tick_dma(bus, storage, cycle, ba_low != 0)
    })
    .answer
}

// The cycle for a host in Rattle that keeps a log: `reu_run_reu_cycle` with the stores that the controller hands out.
pub fn logged_cycle(
    image: &mut [u8],
    bus: &mut [u8],
    storage: &mut [u8],
    ba_high: u32,
    cycle: u64,
    ba_low: u32,
    ba_high_phi1: u32,
) -> Logged
    ensures { (result, image.new, bus.new, storage.new) ≡ logged_cycle image.old bus.old storage.old ba_high cycle ba_low ba_high_phi1 }
{
    let high = ba_high != 0;
    let high_phi1 = ba_high_phi1 != 0;
    change_both(image, bus, storage, |reu, bus, storage| {
        reu.run_reu_cycle(bus, storage, high, high_phi1, cycle, ba_low != 0)
    })
}

#[unsafe(no_mangle)]
pub extern "C" fn reu_run_reu_cycle(
    image: &mut [u8],
    bus: &mut [u8],
    storage: &mut [u8],
    ba_high: u32,
    cycle: u64,
    ba_low: u32,
    ba_high_phi1: u32,
) -> u32
    ensures { (result, image.new, bus.new, storage.new) ≡ reu_cycle image.old bus.old storage.old ba_high cycle ba_low ba_high_phi1 }
{
    match direct::cycle(image, bus, storage, ba_high != 0, ba_high_phi1 != 0, cycle) {
        Some(answer) => answer,
        None => plain_cycle(image, bus, storage, ba_high, cycle, ba_low, ba_high_phi1),
    }
}

// The plain way, which every image can go. It stays a function of its own: within the call it would take registers that an idle cycle would have to save.
#[inline(never)]
fn plain_cycle(
    image: &mut [u8],
    bus: &mut [u8],
    storage: &mut [u8],
    ba_high: u32,
    cycle: u64,
    ba_low: u32,
    ba_high_phi1: u32,
) -> u32
    ensures { (result, image.new, bus.new, storage.new) ≡ reu_cycle image.old bus.old storage.old ba_high cycle ba_low ba_high_phi1 }
{
    logged_cycle(image, bus, storage, ba_high, cycle, ba_low, ba_high_phi1).answer
}
