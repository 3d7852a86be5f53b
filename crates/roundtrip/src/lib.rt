// A script read and written again, and written and read again. It has no code: its statements stand in specs/.
#![tactic(auto)]
