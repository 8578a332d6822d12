// What speaks of no subject: lists, sums, tests as facts, the pigeonhole principle. No code.

#![tactic(auto)]
