// A store seen as a place map, over any type of element, in specs/: what can be done to it, and when it mirrors full copies. There is no code here.
#![tactic(auto)]
