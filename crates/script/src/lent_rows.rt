// Rows on a byte of what the host lends.
ghost use Rattle.std.specs.Prelude.{◌≡◌};
ghost use Rattle.script.specs.Operations.{is_byte, set_byte};

#[tactic(auto, unfolding(crate::specs::Operations::set_byte))]
pub(crate) fn set_byte(memory: &mut [u8], place: u64, value: u64) -> bool
    ensures { (result, memory.new) ≡ set_byte place value memory.old }
{
    let (Ok(i), Ok(value)) = (usize::try_from(place), u8::try_from(value)) else {
        return false;
    };
    // Tried as `get_mut`: the proof did not close, since of the slice after it the library says the length, and nothing of
    // its elements.
    if i < memory.len() {
        memory[i] = value;
        return true;
    }
    false
}

#[tactic(auto, unfolding(crate::specs::Operations::is_byte))]
pub(crate) fn has_byte(memory: &[u8], place: u64, value: u64) -> bool
    ensures { result ≡ is_byte place value memory.now }
{
    usize::try_from(place).is_ok_and(|i| {
        memory.get(i).is_some_and(|byte| u64::from(*byte) == value)
    })
}
