// What it means that a statement determines a reply. It has no code: its meaning stands in specs/.
#![tactic(auto)]
