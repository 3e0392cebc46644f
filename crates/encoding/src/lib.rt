// How the lent slices hold the tables: theorems and no code.
#![tactic(auto)]
