// The meaning of a table: its specification in source 004's sense, and what acceptance gives of it. There is no code here.
#![tactic(auto)]
