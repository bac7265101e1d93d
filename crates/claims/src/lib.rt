// The customer's demands as theorems: this crate holds definitions (`specs/`) and theorems
// (`proofs/`), and no code.

#![tactic(auto)]
