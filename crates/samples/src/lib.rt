// Samples of walks and tables that the checker computes, and what demand 3 says of them: definitions and laws, no
// functions.
//
// Why a crate of its own: to compute a walk or an answer costs more than all laws of walk and of tables together. Above
// both, and without edits of its own, a sample is computed once, and by no edit of a definition below it.

#![tactic(auto)]
