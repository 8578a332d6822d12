// The thirteen items of 01, "Two charts to try": specs/ and proofs/ alone, no code.

#![tactic(auto)]
