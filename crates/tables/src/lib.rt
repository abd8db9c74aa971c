// A lent table, what a build leaves of it and what it answers, what a list becomes, and demands 2 and 3 over these:
// definitions and laws, no functions. It names no code, so that a reader of the demands needs the model alone.

#![tactic(auto)]
