// What the calls of the C interface share, the records being bytes, in specs/. There is no code here.
#![tactic(auto)]
