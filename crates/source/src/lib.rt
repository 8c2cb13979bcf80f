// Theory: a table as it is written, its text and its bytes (request C-12). There is no code here: `reader` and `writer` have it.
#![tactic(auto)]
