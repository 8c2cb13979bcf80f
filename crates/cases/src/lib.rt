// Document 01's cases P1 to P11, as theorems about the definitions. There is no code here.
#![tactic(auto)]
