// Slots that a case changes.
ghost use Rattle.std.specs.Prelude.{◌≡◌, set};

// Puts a value into a slot; where there is no such slot, nothing is done.
pub fn set<T: Copy>(slots: &mut [T], at: usize, value: T)
    ensures { slots.new ≡ set slots.old at value }
{
    if at < slots.len() {
        slots[at] = value;
    }
}
