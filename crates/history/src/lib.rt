// The logic over the history. It has no code: its meaning stands in specs/.
#![tactic(auto)]
