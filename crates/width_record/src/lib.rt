// What a width of a table has come to, a row of the table's record (SPECIFICATION 6.10).
//
// Why a crate of its own that uses none: the build of a width returns the row, a record holds five, a program puts it
// out. Crates that only hold or print rows need not wait until the build of a width is proved.

#![tactic(auto)]

// How many nodes the width has, its completed depth, and whether it is saturated.
#[derive(Clone, Copy)]
pub struct WidthTable {
    pub count: usize,
    pub depth: usize,
    pub saturated: bool,
}
