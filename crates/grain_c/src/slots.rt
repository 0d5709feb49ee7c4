//! How many slots for local variables chunks use.
ghost use Rattle.grain_flat.specs.Slots.{WritesSlots};

use grain_flat::{CProgram, write_slots};

/// Writes the number of slots of each chunk, as many as there is room for: one more than the greatest slot that an instruction of the
/// chunk names, in its fields or by its chain, or 0 if none does. No memory is taken.
#[unsafe(no_mangle)]
pub extern "C" fn grain_proved_slots(program: &CProgram<'_>, slots: &mut [u32])
    ensures { WritesSlots program.now slots.old slots.new }
{
    write_slots(program, slots);
}
