// The lines of a recorded stream. Their meaning stands in specs/.
#![tactic(auto)]
