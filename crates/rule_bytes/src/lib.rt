// The bytes of a rule that is written for a formula: specs/ and proofs/ alone, no code.

#![tactic(auto)]
