// What a border answers and leaves, in specs/. There is no code here.
#![tactic(auto)]
