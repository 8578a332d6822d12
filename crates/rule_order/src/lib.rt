// Rules whose nodes stand operands before their node, left first: specs/ and proofs/ alone, no code.

#![tactic(auto)]
