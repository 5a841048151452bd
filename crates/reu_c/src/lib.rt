// The exported calls of libreu.a, with the names, numbers and buffers that include/reu.h documents. A static library is the library
// of no other crate, so the calls stand in `reu`, for callers in Rattle, and here once more, for C: each hands what it is given to the
// call of its name and promises what that one promises.
#![tactic(auto)]

ghost use Rattle.std.specs.Prelude.{◌≡◌};
ghost use Rattle.reu.specs.Exports.{reu_bus_action, reu_c64_access, reu_capacity_bytes, reu_cpu_ready, reu_cycle, reu_debug_register, reu_dma_active, reu_new, reu_read, reu_reset, reu_set_enabled, reu_set_size, reu_storage_present, reu_tick_dma, reu_trigger_ff00, reu_write};

#[unsafe(no_mangle)]
pub extern "C" fn reu_new(image: &mut [u8]) -> u32
    ensures { (result, image.new) ≡ reu_new image.old }
{
    reu::reu_new(image)
}

#[unsafe(no_mangle)]
pub extern "C" fn reu_reset(image: &mut [u8], hard_reset: u32) -> u32
    ensures { (result, image.new) ≡ reu_reset image.old hard_reset }
{
    reu::reu_reset(image, hard_reset)
}

#[unsafe(no_mangle)]
pub extern "C" fn reu_set_size(image: &mut [u8], size: u64) -> u32
    ensures { (result, image.new) ≡ reu_set_size image.old size }
{
    reu::reu_set_size(image, size)
}

#[unsafe(no_mangle)]
pub extern "C" fn reu_set_enabled(image: &mut [u8], storage: &mut [u8], enabled: u32) -> u32
    ensures { (result, image.new, storage.new) ≡ reu_set_enabled image.old storage.old enabled }
{
    reu::reu_set_enabled(image, storage, enabled)
}

#[unsafe(no_mangle)]
pub extern "C" fn reu_storage_present(image: &[u8]) -> u32
    ensures { result ≡ reu_storage_present image.now }
{
    reu::reu_storage_present(image)
}

#[unsafe(no_mangle)]
pub extern "C" fn reu_capacity_bytes(image: &[u8]) -> u32
    ensures { result ≡ reu_capacity_bytes image.now }
{
    reu::reu_capacity_bytes(image)
}

#[unsafe(no_mangle)]
pub extern "C" fn reu_trigger_ff00(image: &mut [u8]) -> u32
    ensures { (result, image.new) ≡ reu_trigger_ff00 image.old }
{
    reu::reu_trigger_ff00(image)
}

#[unsafe(no_mangle)]
pub extern "C" fn reu_read(image: &mut [u8], addr: u16) -> u32
    ensures { (result, image.new) ≡ reu_read image.old addr }
{
    reu::reu_read(image, addr)
}

#[unsafe(no_mangle)]
pub extern "C" fn reu_write(image: &mut [u8], addr: u16, value: u8) -> u32
    ensures { (result, image.new) ≡ reu_write image.old addr value }
{
    reu::reu_write(image, addr, value)
}

#[unsafe(no_mangle)]
pub extern "C" fn reu_dma_active(image: &[u8]) -> u32
    ensures { result ≡ reu_dma_active image.now }
{
    reu::reu_dma_active(image)
}

#[unsafe(no_mangle)]
pub extern "C" fn reu_bus_action(
    image: &mut [u8],
    storage: &mut [u8],
    ba_high: u32,
    ba_high_phi1: u32,
    cycle: u64,
) -> u32
    ensures { (result, image.new, storage.new) ≡ reu_bus_action image.old storage.old ba_high ba_high_phi1 cycle }
{
    reu::reu_bus_action(image, storage, ba_high, ba_high_phi1, cycle)
}

#[unsafe(no_mangle)]
pub extern "C" fn reu_cpu_ready_after_dma(image: &mut [u8], ba_high: u32) -> u32
    ensures { (result, image.new) ≡ reu_cpu_ready image.old ba_high }
{
    reu::reu_cpu_ready_after_dma(image, ba_high)
}

#[unsafe(no_mangle)]
pub extern "C" fn reu_debug_register(image: &[u8], index: u64) -> u32
    ensures { result ≡ reu_debug_register image.now index }
{
    reu::reu_debug_register(image, index)
}

#[unsafe(no_mangle)]
pub extern "C" fn reu_c64_access(image: &[u8]) -> u32
    ensures { result ≡ reu_c64_access image.now }
{
    reu::reu_c64_access(image)
}

#[unsafe(no_mangle)]
pub extern "C" fn reu_tick_dma(
    image: &mut [u8],
    bus: &mut [u8],
    storage: &mut [u8],
    cycle: u64,
    ba_low: u32,
) -> u32
    ensures { (result, image.new, bus.new, storage.new) ≡ reu_tick_dma image.old bus.old storage.old cycle ba_low }
{
    reu::reu_tick_dma(image, bus, storage, cycle, ba_low)
}

#[unsafe(no_mangle)]
pub extern "C" fn reu_run_reu_cycle(
    image: &mut [u8],
    bus: &mut [u8],
    storage: &mut [u8],
    ba_high: u32,
    cycle: u64,
    ba_low: u32,
    ba_high_phi1: u32,
) -> u32
    ensures { (result, image.new, bus.new, storage.new) ≡ reu_cycle image.old bus.old storage.old ba_high cycle ba_low ba_high_phi1 }
{
    reu::reu_run_reu_cycle(image, bus, storage, ba_high, cycle, ba_low, ba_high_phi1)
}
