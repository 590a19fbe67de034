// Full copies with marks, over any type of element, in specs/: the reference model holds rows so. There is no code here.
#![tactic(auto)]
