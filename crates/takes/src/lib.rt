// What a snapshot answers and leaves, in specs/. There is no code here.
#![tactic(auto)]
