// The promises over lookup, set, mend and check: theorems only, see specs/ and proofs/. There is no code.
#![tactic(auto)]
