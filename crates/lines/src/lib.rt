// What a run over a stream prints and leaves, line by line, in specs/. There is no code here.
#![tactic(auto)]
