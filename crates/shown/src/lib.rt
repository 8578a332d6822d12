// Shown runs and the table by steps that finds them: specs/ and proofs/ alone, no code.

#![tactic(auto)]
