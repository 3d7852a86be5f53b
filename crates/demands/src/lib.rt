// What is promised, stated over any build. It has no code: its statements stand in specs/.
#![tactic(auto)]
