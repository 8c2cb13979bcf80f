// Pure theory that several layers use: integers by their two parts, tests, lists. There is no code here.
#![tactic(auto)]
