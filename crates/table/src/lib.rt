// Document 01's table of a book's refusals, as data (specs/), and that reading refuses as it says (proofs/). No code.
#![tactic(auto)]
