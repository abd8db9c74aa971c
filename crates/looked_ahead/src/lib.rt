// The nodes to which the fingerprints of a node's candidates lead, looked up through the index before the first
// candidate is appended: look-ups through the index wait for memory, and several wait together. A node that is found
// ahead stays the one that the look-up gives; where none was found, the candidate is looked up again when its turn
// comes, since an earlier candidate of the node may have its fingerprint.
#![tactic(auto)]

ghost use Rattle.std.specs.Prelude.{◌≡◌, ◌≤◌, length, take};
ghost use Rattle.circuit.specs.Codes.{mark};
ghost use Rattle.walk.specs.Finds.{looked_in};
ghost use Rattle.index.specs.Told.{told_by, told_part};
ghost use Rattle.synthesis_arena.specs.Lookup.{told_found};
ghost use Rattle.looked_ahead.specs.Ahead.{ahead_by, Hint, LookedAhead};

use index::{LookupBy, Part};
use synthesis_arena::MARK;

// The node to which a candidate's fingerprint leads, looked up before its turn comes; the mark where there is none. By
// the scan nothing is looked up ahead: look-ups through the index wait for memory, and several wait together; a scan
// does not wait.
pub fn node_ahead(part: Part<'_>, print: u64) -> u32
    requires within { (part.count ≤ length part.fingerprints.now) × (part.count ≤ mark) }
    ensures ahead { result ≡ ahead_by (told_by part.entry.by) (looked_in (told_part part.entry) 0 print) }
{
    match part.by {
        LookupBy::Scan => MARK,
        LookupBy::Index => match index::probe(part.index, part.fingerprints, part.count, 0, print) {
            Some(node) => node as u32,
            None => MARK,
        },
    }
}

// The nodes to which the fingerprints in the first places lead, before a candidate is appended: they are put into the
// first places of `nodes`, each as `node_ahead` tells it.
pub fn look_ahead(part: Part<'_>, size: usize, prints: &[u64; 105], nodes: &mut [u32; 105])
    requires within { (part.count ≤ length part.fingerprints.now) × (part.count ≤ mark) }
    requires room { size ≤ 105 }
    ensures ahead { LookedAhead (told_by part.entry.by) part.entry.index.now part.entry.fingerprints.now part.entry.count (take size prints.now) nodes.new size }
{
    for j in 0..size {
        nodes[j] = node_ahead(part, prints[j]);
    }
}

// The node to which a fingerprint leads: where one was found ahead it is that node.
pub fn first_node(part: Part<'_>, print: u64, ahead: u32) -> Option<usize>
    requires within { part.count ≤ length part.fingerprints.now }
    requires ahead { Hint (looked_in (told_part part) 0 print) ahead }
    ensures first { told_found result ≡ looked_in (told_part part.entry) 0 print }
{
    if ahead != MARK {
        return Some(ahead as usize);
    }
    part.look_up(0, print)
}
