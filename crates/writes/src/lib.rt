// What a write answers and leaves, way by way, in specs/. There is no code here.
#![tactic(auto)]
