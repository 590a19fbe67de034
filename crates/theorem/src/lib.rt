// The theorem over any list of calls, in specs/. There is no code here.
#![tactic(auto)]
