// The marked trials of document 01, "Trials at the edges", stated and proved on the definitions in specs/. There is no code here.

#![tactic(auto)]
