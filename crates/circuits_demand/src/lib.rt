// Demand 3 of the program's lines: definitions and laws, no functions. Above circuits_output, which it speaks of, so
// that neither is proved again for a must-fail edit of the other.

#![tactic(auto)]
