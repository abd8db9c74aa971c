// The matrix of a node and the fingerprints of its candidates. A node keeps no matrix: its matrix is formed once from
// its list of gates, and each generator is applied to a copy of its places. What a candidate comes to here depends on
// the node's matrix and the gate alone. So two can be formed before either is looked up, and their fingerprints are
// worked together.
#![tactic(auto)]

ghost use Rattle.std.specs.Prelude.{◌≡◌, true, ◌*◌, ◌^◌, ◌≤◌, ◌<◌, length};
ghost use Rattle.circuit.specs.Codes.{valid};
ghost use Rattle.exact.specs.Matrix.{identity};
ghost use Rattle.exact.specs.Places.{held};
ghost use Rattle.places.specs.Places.{places};
ghost use Rattle.places.specs.Held.{Holds, Ready};
ghost use Rattle.node_matrix.specs.Matrices.{Readable, Formed, Copied, CopiedOn, OnCopy, FormedAs};

use circuit::{GateSet, LibraryGate};
use cyclotomic::Coefficient;
use synthesis_arena::WidthLimits;

// Two candidates of a node: of each its fingerprint and the exponent of its matrix, or None where it does not fit.
#[derive(Clone, Copy)]
pub struct TwoCandidates {
    pub first: Option<(u64, u16)>,
    pub second: Option<(u64, u16)>,
}

// The matrix of a node, formed from its list in `m`, from a copy of the identity on. Returns the exponent. The two
// other arms are never taken.
pub fn form_node(
    limits: WidthLimits,
    node: usize,
    parents: &[u32],
    codes: &[u32],
    one: &[Coefficient],
    m: &mut [Coefficient; 4096],
) -> u16
    requires narrow { limits.width ≤ 5 }
    requires identity { Holds limits.width 0 one.now identity }
    requires long { length m.old ≡ places }
    requires readable { Readable limits parents.now codes.now node }
    ensures formed { Formed limits parents.now codes.now node result m.new }
{
    copy_matrix(limits.width as usize, one, m);
    let mut list: [u32; 64] = [0; 64];
    let Ok(size) = synthesis_arena::circuit(
        parents,
        codes,
        limits.width,
        GateSet(limits.basis),
        64,
        node,
        &mut list,
    ) else {
        return 0;
    };
    match lists::apply_gates(m, limits.width as usize, &list[..size]) {
        Ok(k) => k,
        Err(_) => 0,
    }
}

// The places from one up to another are copied.
fn copy_block(from: &[Coefficient], to: &mut [Coefficient], start: usize, end: usize)
    requires order { start ≤ end }
    requires room { (end ≤ length from.now) × (end ≤ length to.old) }
    ensures copied { CopiedOn from.now to.old to.new start end }
{
    // A loop, and not `copy_from_slice`: compiled, that calls memmove, and archives for C need memcpy and memset alone.
    for i in start..end {
        to[i] = from[i];
    }
}

// Where the block from a place on ends. A block has at most 1,024 places: longer copies take many times as long where
// the two arrays lie so that a place to be read is a little below one just written, by their addresses' low 12 bits
// (docs/SPEED.md).
fn block_end(start: usize, size: usize) -> usize
    requires { start < size }
    ensures { (start < result) × (result ≤ size) }
{
    if size - start <= 1024 {
        return size;
    }
    start + 1024
}

// The places of a matrix of width n are copied to the first places of another slice, block after block.
fn copy_matrix(n: usize, from: &[Coefficient], to: &mut [Coefficient])
    requires narrow { n ≤ 5 }
    requires room { (4 * (2 ^ n * 2 ^ n) ≤ length from.now) × (4 * (2 ^ n * 2 ^ n) ≤ length to.old) }
    ensures copied { Copied from.now to.old to.new (4 * (2 ^ n * 2 ^ n)) }
{
    let size = 4 * places::area(n);
    let mut i = 0;
    // A `while`, since `block_end` tells where a block ends: by `step_by` the end of the last would be told apart.
    while i < size {
        let end = block_end(i, size);
        copy_block(from, to, i, end);
        i = end;
    }
}

// A gate applied to a copy of a matrix: the exponent of the result, which is then in `copy`, or None where the step does
// not fit.
pub fn apply_to_copy(
    n: usize,
    gate: u32,
    exponent: u16,
    m: &[Coefficient],
    copy: &mut [Coefficient; 4096],
) -> Option<u16>
    requires narrow { n ≤ 5 }
    requires valid { valid n gate ≡ true }
    requires ready { Ready n exponent m.now }
    requires long { length copy.old ≡ places }
    ensures applied { OnCopy n gate (held n exponent m.now) copy.new result }
    ensures long { length copy.new ≡ places }
{
    copy_matrix(n, m, copy);
    matrix::apply_gate_left(copy, n, LibraryGate(gate), exponent)
}

// One candidate: the fingerprint of a matrix after a gate and the exponent, or None where the step does not fit. The gate
// is applied to a copy in `scratch`, which then holds the candidate's matrix.
fn candidate_print(
    n: usize,
    gate: u32,
    exponent: u16,
    m: &[Coefficient],
    scratch: &mut [Coefficient; 4096],
) -> Option<(u64, u16)>
    requires narrow { n ≤ 5 }
    requires valid { valid n gate ≡ true }
    requires ready { Ready n exponent m.now }
    requires long { length scratch.old ≡ places }
    ensures formed { FormedAs n gate (held n exponent m.now) scratch.new result }
    ensures long { length scratch.new ≡ places }
{
    let k = apply_to_copy(n, gate, exponent, m, scratch)?;
    Some((prints::unitary_fingerprint(scratch, n, k), k))
}

// Two candidates of a node, each with a copy of its own. Where both fit, their fingerprints are worked together.
pub fn two_prints(
    n: usize,
    g: u32,
    h: u32,
    exponent: u16,
    m: &[Coefficient],
    left: &mut [Coefficient; 4096],
    right: &mut [Coefficient; 4096],
) -> TwoCandidates
    requires narrow { n ≤ 5 }
    requires valid { (valid n g ≡ true) × (valid n h ≡ true) }
    requires ready { Ready n exponent m.now }
    requires long { (length left.old ≡ places) × (length right.old ≡ places) }
    ensures first { FormedAs n g (held n exponent m.now) left.new result.first }
    ensures second { FormedAs n h (held n exponent m.now) right.new result.second }
    ensures long { (length left.new ≡ places) × (length right.new ≡ places) }
{
    let Some(j) = apply_to_copy(n, g, exponent, m, left) else {
        return TwoCandidates {
            first: None,
            second: candidate_print(n, h, exponent, m, right),
        };
    };
    let Some(k) = apply_to_copy(n, h, exponent, m, right) else {
        return TwoCandidates {
            first: Some((prints::unitary_fingerprint(left, n, j), j)),
            second: None,
        };
    };
    let both = pair_prints::pair_fingerprints(left, right, n, j, k);
    TwoCandidates {
        first: Some((both.left, j)),
        second: Some((both.right, k)),
    }
}
