// Demands 2 and 3 as two statements and two theorems. There is no code here.
#![tactic(auto)]
