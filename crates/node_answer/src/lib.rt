// What one node of a table is to a matrix that is asked, whatever the arrays hold: its list is read along its parents,
// and the product of the list is formed and held against the matrix (SPECIFICATION 7.5, 7.6). Apart from the search
// over the nodes with a fingerprint, which asks this of each.
#![tactic(auto)]

ghost use Rattle.std.specs.Prelude.{◌≡◌, true, ◌++◌, ◌≤◌, ◌<◌, length, drop};
ghost use Rattle.ints.specs.Lists.{all};
ghost use Rattle.circuit.specs.Codes.{valid};
ghost use Rattle.exact.specs.Matrix.{identity};
ghost use Rattle.exact.specs.Places.{held};
ghost use Rattle.places.specs.Held.{Holds};
ghost use Rattle.walk.specs.Chains.{chain_of};
ghost use Rattle.walk.specs.Finds.{rechecked};
ghost use Rattle.node_answer.specs.Answers.{AskedPlaces, told_find, NodeFound};

use circuit::GateSet;
use cyclotomic::Coefficient;
use synthesis_arena::{BadChain, WidthLimits};

// The recheck: the product of the list is formed from the identity in lent places; whether every step fits, and it is
// equal up to phase to the matrix asked (SPECIFICATION 7.6). What the places hold afterwards is not told.
pub fn recheck(
    codes: &[u32],
    n: usize,
    exponent: u16,
    query: &[Coefficient],
    scratch: &mut [Coefficient; 4096],
) -> bool
    requires n_bound { n ≤ 5 }
    requires codes_value { all (valid n) codes.now ≡ true }
    requires asked_places { AskedPlaces n query.now }
    requires holds { Holds n 0 scratch.old identity }
    ensures { result ≡ rechecked n codes.now (held n exponent query.now) }
{
    match lists::apply_gates(scratch, n, codes) {
        Ok(k) => up_to_phase::equivalent_up_to_global_phase(scratch, query, n, k, exponent),
        Err(_) => false,
    }
}

// The places of one slice are copied to the first places of the other.
pub fn copy_codes(to: &mut [u32], from: &[u32])
    requires { length from.now ≤ length to.old }
    ensures { to.new ≡ from.now ++ drop (length from.now) to.old }
{
    to[..from.len()].copy_from_slice(from);
}

// What one node is to the matrix asked: the node and how many gates its list has, or none where the list does not pass.
// A bad chain is the error (SPECIFICATION 7.5). The list is read into the first places of `list`, and its product
// formed in `scratch`.
#[tactic(auto, using(crate::proofs::Noded::listed))]
pub fn find_node(
    limits: WidthLimits,
    node: usize,
    exponent: u16,
    parents: &[u32],
    codes: &[u32],
    query: &[Coefficient],
    list: &mut [u32],
    scratch: &mut [Coefficient; 4096],
) -> Result<Option<(usize, usize)>, BadChain>
    requires width_bound { (limits.width ≤ 5) × (limits.gates ≤ length list.old) }
    requires node_in_bounds { (node < length parents.now) × (node < length codes.now) }
    requires asked_places { AskedPlaces limits.width query.now }
    requires holds { Holds limits.width 0 scratch.old identity }
    ensures is { NodeFound limits.width (held limits.width exponent query.now)
        (chain_of limits.width limits.basis parents.now codes.now limits.gates) node (told_find result) list.new }
{
    let size = synthesis_arena::circuit(
        parents,
        codes,
        limits.width,
        GateSet(limits.basis),
        limits.gates,
        node,
        list,
    )?;
    if !recheck(
        &list[..size],
        limits.width as usize,
        exponent,
        query,
        scratch,
    ) {
        return Ok(None); // its list does not pass
    }
    Ok(Some((node, size)))
}
