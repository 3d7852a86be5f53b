// Test only: the readings that mislead, each refuted. It has no code: its statements stand in specs/.
#![tactic(auto)]
