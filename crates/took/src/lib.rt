// A snapshot leaves sound records, in specs/. There is no code here.
#![tactic(auto)]
