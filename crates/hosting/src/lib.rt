// The theorem over any list of calls from C: its calls in specs/, itself in proofs/. There is no code here.
#![tactic(auto)]
