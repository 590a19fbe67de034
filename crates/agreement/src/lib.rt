// Demand 3 (SPEC 10) over a place map, in specs/: when a store agrees with the reference model, and that every call keeps it so. There is no code here.
#![tactic(auto)]
