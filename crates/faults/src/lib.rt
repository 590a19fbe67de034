// A count of what is wrong, as laws in specs/. There is no code here.
#![tactic(auto)]
