// No code: two histories that agree on what a rule reaches give it the same results.
#![tactic(auto)]
