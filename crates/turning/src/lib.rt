// A loop that goes from reader to reader, in proofs/, for any type of run and any facts. There is no code here.
#![tactic(auto)]
