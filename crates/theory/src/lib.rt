// Normal tables, stores, cuts and mends as mathematics, over an abstract word format: see specs/ and proofs/. There is no code.
#![tactic(auto)]
