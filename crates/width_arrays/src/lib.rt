// The nodes of a width, put into its arrays and its part of the index one by one: node 0, and a candidate that the walk
// does not skip (SPECIFICATION 6.3, 6.8). Whether a candidate is skipped is asked above this crate: what stands here
// depends on the arrays alone, and an unskipped candidate at a full width is what saturates it.
#![tactic(auto)]

ghost use Rattle.std.specs.Prelude.{◌<◌, length};
ghost use Rattle.index.specs.Told.{told_by};
ghost use Rattle.width_arrays.specs.Arrays.{Room};
ghost use Rattle.width_arrays.specs.Put.{RootPut, NodePut};

use index::LookupBy;
use synthesis_arena::{MARK, WidthLimits};

// How many nodes there are now, and whether the width is saturated (SPECIFICATION 6.8).
#[derive(Clone, Copy)]
pub struct Tried {
    pub count: usize,
    pub saturated: bool,
}

// Node 0: the fingerprint of the identity, and the mark as its parent and code. It is the first to be put into the part
// of the index.
pub fn put_root(
    by: LookupBy,
    print: u64,
    fingerprints: &mut [u64],
    parents: &mut [u32],
    codes: &mut [u32],
    index: &mut [u32],
)
    requires room { (0 < length fingerprints.old) × (0 < length parents.old) × (0 < length codes.old) }
    ensures put { RootPut (told_by by) print
        fingerprints.old parents.old codes.old index.old
        fingerprints.new parents.new codes.new index.new }
{
    fingerprints[0] = print;
    parents[0] = MARK;
    codes[0] = MARK;
    index::start(by, index);
    index::keep_up(by, index, print, 0);
}

// A candidate that is not skipped, the gate after the node: it is put after the nodes that there are, or saturates a
// width that is full.
pub fn put_node(
    by: LookupBy,
    limits: WidthLimits,
    count: usize,
    node: usize,
    gate: u32,
    print: u64,
    fingerprints: &mut [u64],
    parents: &mut [u32],
    codes: &mut [u32],
    index: &mut [u32],
) -> Tried
    requires room { Room (told_by by) limits count node fingerprints.old parents.old codes.old index.old }
    ensures put { NodePut (told_by by) limits count node gate print
        fingerprints.old parents.old codes.old index.old
        fingerprints.new parents.new codes.new index.new result }
{
    let entries = limits.entries;
    if count == entries {
        return Tried {
            count,
            saturated: true,
        };
    }
    fingerprints[count] = print;
    parents[count] = node as u32;
    codes[count] = gate;
    index::keep_up(by, index, print, count as u32);
    Tried {
        count: count + 1,
        saturated: false,
    }
}
