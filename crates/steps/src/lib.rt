// The step theorems: where a store agrees with the reference model before a call, the answers are equal and it agrees after it. Laws in specs/, no code.
#![tactic(auto)]
