// What a row in cable order is, what turning one answers and leaves, and that it comes back: definitions and laws, without code.
#![tactic(auto)]
