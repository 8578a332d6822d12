// The table by minutes: for each minute left of a bound, who makes it. No code.

#![tactic(auto)]
