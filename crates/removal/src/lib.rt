// What a delete's changes do to the records: entries freed, a node made a ghost, a leaf taken away, a node with one child taken out. Laws in specs/, no code.
#![tactic(auto)]
