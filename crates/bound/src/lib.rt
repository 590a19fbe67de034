// How many nodes sound records can use, as laws in specs/. There is no code here.
#![tactic(auto)]
