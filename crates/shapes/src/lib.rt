// Theory: forms of text, and the place where a text leaves a form (refusal 17 of request C-12). There is no code here: `spell` has it.
#![tactic(auto)]
