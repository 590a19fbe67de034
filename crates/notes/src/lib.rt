// The notes of a row and what going up by them gives, in specs/. There is no code here.
#![tactic(auto)]
