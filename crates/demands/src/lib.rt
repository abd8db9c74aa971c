// The demands as one record, what is proved beside them as another, and the proofs: no functions. It stands above every
// crate whose records it names, so that a request that adds a record is named here and moves nothing below; no code is
// named, and a reader needs the model alone.

#![tactic(auto)]
