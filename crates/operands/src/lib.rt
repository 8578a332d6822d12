// A row of marks that is written from the rows of a node's operands. No code.

#![tactic(auto)]
