// The laws of the definitions of `spec`, for the proofs of the crates above. There is no code, and no statement that a reader must believe.
#![tactic(auto)]
