// What the calls that read and write a rule as text answer, in the paper's sentences, and both ways round: no code.

#![tactic(auto)]
