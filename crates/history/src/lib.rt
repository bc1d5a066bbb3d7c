// Demand 3 over time: theorems only, see specs/ and proofs/. There is no code.
#![tactic(auto)]
