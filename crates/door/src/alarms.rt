// The results that call for somebody: alarms that are raised, properties that are violated.
ghost use Rattle.std.specs.Prelude.{◌≡◌};
ghost use Rattle.door.specs.Alarms.{calls, next_alarm};

// The word of an alarm that is raised, or of a property that is violated.
fn calls(word: u64) -> bool
    ensures { result ≡ calls word }
{
    word == 10 || word == 12
}

// The first place from `from` on with such a word, and the number of slots where there is none.
pub fn nimbra_next_alarm(results: &[u64], from: u64) -> u64
    ensures { result ≡ next_alarm results.now from }
{
    for k in from as usize..results.len() {
        if calls(results[k]) {
            return k as u64;
        }
    }
    results.len() as u64
}
