// Which generators are tried after a node: the two skip rules (SPECIFICATION 6.5), by the node's own gate. A gate that
// inverts it gives a product that was tried before; of two gates that share no qubit one order is enough. Both are
// asked of the code alone, before a matrix is formed.
#![tactic(auto)]

ghost use Rattle.std.specs.Prelude.{◌≡◌, ◌≤◌, ◌<◌, length};
ghost use Rattle.skip_rules.specs.Skips.{pruned_at, Unpruned};

use circuit::LibraryGate;

// Whether the gate is skipped after the node by the node's own gate: it inverts that gate, or the two are disjoint and
// its code is the lower one (SPECIFICATION 6.5).
pub fn is_pruned(node: usize, gate: u32, codes: &[u32]) -> bool
    requires there { node < length codes.now }
    ensures pruned { result ≡ pruned_at codes.now node gate }
{
    if node == 0 {
        return false;
    }
    let last = codes[node];
    if LibraryGate(gate).is_inverse_of(LibraryGate(last)) {
        return true;
    }
    if !LibraryGate(gate).is_disjoint(LibraryGate(last)) {
        return false;
    }
    gate < last
}

// The generators that the two skip rules leave after a node, in order: they are put into the first places of `kept`.
// Returns how many they are.
pub fn unpruned(node: usize, gates: &[u32], codes: &[u32], kept: &mut [u32; 105]) -> usize
    requires there { node < length codes.now }
    requires room { (length gates.now ≤ 105) × (length kept.old ≡ 105) }
    ensures unpruned { Unpruned node gates.now codes.now kept.new result }
{
    let mut size = 0;
    for &gate in gates {
        kept[size] = gate;
        if !is_pruned(node, gate, codes) {
            size += 1;
        }
    }
    size
}
