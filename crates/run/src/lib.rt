// Document 01's run of a specification, over any values and any layout of the store: schedule, turn, calls, demands 2 and 3. There is no
// code here.
#![tactic(auto)]
