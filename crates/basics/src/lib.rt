// Definitions and laws on numbers and lists, in specs/. There is no code here.
#![tactic(auto)]
