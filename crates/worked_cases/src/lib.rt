// Cases worked out by hand (SPECIFICATION 11.1) and computed by the checker: one table and one law, no functions.
//
// Why one table: a case is a row with what the definitions give beside what is stated, so that one law holds all of
// them and a row can be read against the document with no proof beside it.

#![tactic(auto)]
