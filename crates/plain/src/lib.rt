// Document 01's plain gate and demand 3: definitions (specs/) and what follows from the rules alone (proofs/). No code.
#![tactic(auto)]
