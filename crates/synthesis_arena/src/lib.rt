// One width's part of a table, in three lent arrays: fingerprints, parents, gate codes. synthesis_arena.rs of the
// original, `WidthTable`: a node is its last gate and its parent, which has the gates before it, and its list is read
// along the parents to node 0 (SPECIFICATION 7.4, 7.5). Whatever the arrays hold is decided; a chain is bad only where
// a caller made or altered the table.
#![tactic(auto)]

ghost use Rattle.std.specs.Prelude.{◌≡◌, false, ℕ, ◌%◌, ◌<◌, ◌≤◌, length};
ghost use Rattle.synthesis_arena.specs.Lookup.{told_found};
ghost use Rattle.walk.specs.Lookup.{lowest_from};
ghost use Rattle.synthesis_arena.specs.Chains.{depth_of, told_depth, told_circuit};
ghost use Rattle.walk.specs.Answers.{outcome, written};
ghost use Rattle.walk.specs.Chains.{marked, chain_of};
ghost use Rattle.refusal.specs.declared.Refusal.TheVariants.{BadTable};

use circuit::{GateSet, LibraryGate};
use refusal::Refusal;

// The mark: node 0 has it in the place of a parent and of a code (SPECIFICATION 2.10).
pub const MARK: u32 = 4294967295;

// The limits of a width: its number, the basis as a set, the gate limit, the entry limit.
#[derive(Clone, Copy)]
pub struct WidthLimits {
    pub width: u32,
    pub basis: u32,
    pub gates: usize,
    pub entries: usize,
}

// A node's chain is bad: it does not lead to node 0, or a gate on the way is not valid, not of the basis, or one too many.
#[derive(Clone, Copy)]
pub struct BadChain;

impl From<BadChain> for Refusal {
    ghost from_gives = { λ _ refusal. refusal ≡ BadTable };

    fn from(_chain: BadChain) -> Refusal {
        Refusal::BadTable
    }
}

// The lower 32 bits of a fingerprint.
fn low(fingerprint: u64) -> u32
    ensures half { result ≡ fingerprint % 4294967296 }
{
    (fingerprint % 4294967296) as u32
}

// Whether one of the nodes from one on and below another may have the fingerprint: its lower half, four of which are
// compared at once. There is no early return: this loop is many times faster without one.
fn may_have(fingerprints: &[u64], from: usize, end: usize, fingerprint: u64) -> bool
    requires within { (from ≤ end) × (end ≤ length fingerprints.now) }
    ensures none_has { (count : ℕ) → end ≤ count → result ≡ false
        → lowest_from fingerprints.now count end fingerprint ≡ lowest_from fingerprints.now count from fingerprint }
{
    let half = low(fingerprint);
    let mut found = false;
    for i in from..end {
        found |= low(fingerprints[i]) == half;
    }
    found
}

// A place before which none of the nodes, from one on, has the fingerprint: whole blocks that do not have it are passed
// over.
fn skip_blocks(fingerprints: &[u64], count: usize, from: usize, fingerprint: u64) -> usize
    requires within { (from ≤ count) × (count ≤ length fingerprints.now) }
    ensures none_before { lowest_from fingerprints.now count result fingerprint ≡ lowest_from fingerprints.now count from fingerprint }
{
    let mut i = from;
    // A `while`, since it goes over whole blocks alone: `step_by` would go to the last, shorter one as well.
    while 64 <= count - i {
        let end = i + 64;
        if may_have(fingerprints, i, end, fingerprint) {
            return i;
        }
        i = end;
    }
    i
}

// The lowest node that has the fingerprint, of those from a place on and below the count (SPECIFICATION 7.4).
pub fn node_for(fingerprints: &[u64], count: usize, from: usize, fingerprint: u64) -> Option<usize>
    requires within { count ≤ length fingerprints.now }
    ensures lowest { told_found result ≡ lowest_from fingerprints.now count from fingerprint }
{
    if count <= from {
        return None;
    }
    let start = skip_blocks(fingerprints, count, from, fingerprint);
    for i in start..count {
        if fingerprints[i] == fingerprint {
            return Some(i);
        }
    }
    None
}

// Whether node 0 has its marks.
fn is_marked(parents: &[u32], codes: &[u32]) -> bool
    requires some { (0 < length parents.now) × (0 < length codes.now) }
    ensures marked { result ≡ marked parents.now codes.now }
{
    parents[0] == MARK && codes[0] == MARK
}

// The depth of a node: 0 for node 0, and for another one more than its parent's (SPECIFICATION 7.5). The recursion is
// on the node's number, which falls because a parent lies below its node. The gate limit falls by one with each gate,
// so that no more than `limit` + 1 calls are open.
pub fn depth(
    parents: &[u32],
    codes: &[u32],
    width: u32,
    basis: GateSet,
    limit: usize,
    node: usize,
) -> Result<usize, BadChain>
    requires there { (node < length parents.now) × (node < length codes.now) }
    ensures depth { told_depth result ≡ depth_of (chain_of width basis.0 parents.now codes.now limit node) }
{
    if node == 0 {
        if !is_marked(parents, codes) {
            return Err(BadChain); // node 0 without its marks
        }
        return Ok(0);
    }
    if limit == 0 {
        return Err(BadChain); // more than G gates
    }
    let parent = parents[node] as usize;
    if parent >= node {
        return Err(BadChain); // a parent not below its node
    }
    if !LibraryGate(codes[node]).is_valid_for(width, basis) {
        return Err(BadChain); // a code not valid or not of B
    }
    Ok(depth(parents, codes, width, basis, limit - 1, parent)? + 1)
}

// The list of a node, read along its parents, oldest gate first. The gates fill the first places of `out`; later
// places, and on a bad chain all of them, keep what they held (SPECIFICATION 7.5, 7.7).
pub fn circuit(
    parents: &[u32],
    codes: &[u32],
    width: u32,
    basis: GateSet,
    limit: usize,
    node: usize,
    out: &mut [u32],
) -> Result<usize, BadChain>
    requires there { (node < length parents.now) × (node < length codes.now) × (limit ≤ length out.old) }
    ensures written { outcome (told_circuit result) out.new
        ≡ written out.old (chain_of width basis.0 parents.now codes.now limit node) }
{
    let size = depth(parents, codes, width, basis, limit, node)?;
    let mut at = node;
    for i in (0..size).rev() {
        out[i] = codes[at];
        at = parents[at] as usize;
    }
    Ok(size)
}
