// Walks between streams, loops and look-aheads, and the definitions that compute them. There is no code here: the crate `square` has it.
#![tactic(auto)]
