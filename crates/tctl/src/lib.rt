// The meaning of charts and rules and its theory: specs/ and proofs/ alone, no code.

#![tactic(auto)]
