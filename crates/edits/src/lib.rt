// What changes of the tree and the table do to the records: that they stay sound, and what each version reads. Laws in specs/, no code.
#![tactic(auto)]
