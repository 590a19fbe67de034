// Sound records with their places, seen as a place map: the bridge from the store to the agreement with the reference model. Laws in specs/, no code.
#![tactic(auto)]
