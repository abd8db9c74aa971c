// Exact matrices over Z[omega], what gates do to their rows, what fits, equality up to phase, fingerprints: definitions
// and laws, no functions.
//
// Why apart from the code: a product is defined with no bound on coefficients or exponent, so that demands can speak of
// it whether it fits or not; what fits is said beside it. Entries are a function of row and column, so that no law
// speaks of places.

#![tactic(auto)]
