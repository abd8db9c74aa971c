// Laws only, no functions: the integers by a normaliser and through the naturals, the range of a machine number,
// numbers by their bits, tests, and lists as loops make them. They name no gate and no entry, so every crate above
// takes its arithmetic from here.

#![tactic(auto)]
