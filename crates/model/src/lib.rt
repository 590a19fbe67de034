// The reference model, in specs/. There is no code here, and nothing of the store.
#![tactic(auto)]
