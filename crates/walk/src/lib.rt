// The walk of one width, look-ups and chains in its arrays, its answers, and demand 3 over them: definitions and laws,
// no functions.
//
// Why over any rules: the walk takes what it is handed (matrices, what is known, what answers) as a parameter. Its laws
// are proved once and hold in each mode, and a walk over two numbers shows what a clash of fingerprints does.

#![tactic(auto)]
