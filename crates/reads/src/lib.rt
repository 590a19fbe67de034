// What a read answers, in specs/. There is no code here.
#![tactic(auto)]
