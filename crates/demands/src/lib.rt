// What is demanded of the operations as a whole: statements in specs/, their proofs in proofs/. There is no code.
#![tactic(auto)]
