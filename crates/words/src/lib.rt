// Words for lists, numbers below n and regions of a slice, and their laws: definitions and theorems, no code.
#![tactic(auto)]
