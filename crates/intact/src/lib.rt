// What every call keeps: sound records, the places as many, the arrays whole. In specs/; there is no code here.
#![tactic(auto)]
