// What each of the twenty-five kinds has to remember.
ghost use Rattle.std.specs.Prelude.{◌≡◌};
ghost use Rattle.memory.specs.Memory.{memory_of};

use crate::Memory;
use table::Entry;

// What each kind has to remember; most kinds nothing.
#[tactic(auto, unfolding(crate::specs::Memory::memory_of))]
pub fn memory_of(e: Entry) -> Memory
    ensures { result ≡ memory_of e }
{
    match e {
        Entry::Pair(_, _) => Memory::Open,
        Entry::Start(_) => Memory::Stood,
        Entry::End(_) => Memory::Failed,
        Entry::Time(_) => Memory::Latest,
        _ => Memory::Nothing,
    }
}
