// The customer's demands as theorems about the calls: specs/ and proofs/ alone, no code.

#![tactic(auto)]
