// Demand 3, a theorem of the calls: specs/Demand.antt states it, specs/Mission.antt says it in the mission's own words, and
// proofs/Theorems.antt proves both. specs/Worked.antt has worked examples. There is no code here.
#![tactic(auto)]
