// The monitor knows the whole history. It has no code: what it says stands in specs/.
#![tactic(auto)]
