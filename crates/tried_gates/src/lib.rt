// The gates that are left after a node, in order: each candidate is handed to `append`, with its fingerprint and the
// node that was looked up ahead for it, until the width is saturated. That gates were left out changes nothing: a
// candidate that the walk skips stays skipped, whatever nodes are added (`skipped_stays`, proofs/Skipped), and a node
// that was found ahead stays the one that the look-up gives (`found_stays`, proofs/Gates).
#![tactic(auto)]

ghost use Rattle.std.specs.Prelude.{◌≡◌, map, ◌≤◌, ◌<◌, length};
ghost use Rattle.generators.specs.Generators.{generators};
ghost use Rattle.exact.specs.Places.{held};
ghost use Rattle.places.specs.Places.{places};
ghost use Rattle.index.specs.Told.{told_by};
ghost use Rattle.known.specs.Known.{told_mode};
ghost use Rattle.skip_rules.specs.Skips.{unskipped};
ghost use Rattle.fitting_gates.specs.Fitting.{candidate_print};
ghost use Rattle.looked_ahead.specs.Ahead.{ahead_of};
ghost use Rattle.tried_gates.specs.Tries.{left_out, NodeFormed, GatesTried};

use cyclotomic::Coefficient;
use index::LookupBy;
use known::{BuildMode, Candidate};
use synthesis_arena::WidthLimits;
use width_arrays::Tried;

// The gates that are left after a node whose matrix is in m, in order, with the fingerprints of their candidates and
// the nodes that were found ahead for them: each goes to `append`, until the width is saturated.
pub fn try_gates(
    mode: BuildMode,
    by: LookupBy,
    limits: WidthLimits,
    count: usize,
    node: usize,
    exponent: u16,
    gates: &[u32],
    prints: &[u64],
    nodes: &[u32],
    fingerprints: &mut [u64],
    parents: &mut [u32],
    codes: &mut [u32],
    index: &mut [u32],
    m: &[Coefficient],
    left: &mut [Coefficient; 4096],
    right: &mut [Coefficient; 4096],
) -> Tried
    requires bounds { (limits.width ≤ 5) × (node < count) × (limits.entries ≤ 1000000) × (limits.gates ≤ 64) }
    requires gates { gates.now ≡ unskipped (left_out limits node codes.old (held limits.width exponent m.now)) (generators limits.width limits.basis) }
    requires prints { prints.now ≡ map (candidate_print limits.width (held limits.width exponent m.now)) gates.now }
    requires nodes { nodes.now ≡ ahead_of (told_by by) index.old fingerprints.old count prints.now }
    requires formed { NodeFormed (told_mode mode) (told_by by) limits count node exponent fingerprints.old parents.old codes.old index.old m.now }
    requires long { (length left.old ≡ places) × (length right.old ≡ places) }
    ensures tried { GatesTried (told_mode mode) (told_by by) limits count node exponent m.now
        fingerprints.old parents.old codes.old index.old
        fingerprints.new parents.new codes.new index.new result }
    ensures long { (length left.new ≡ places) × (length right.new ≡ places) }
{
    let mut n = count;
    for (j, &gate) in gates.iter().enumerate() {
        let candidate = Candidate {
            gate,
            print: prints[j],
            ahead: nodes[j],
        };
        let t = next_node::append(
            mode,
            by,
            limits,
            n,
            node,
            candidate,
            exponent,
            fingerprints,
            parents,
            codes,
            index,
            m,
            left,
            right,
        );
        n = t.count;
        if t.saturated {
            return t;
        }
    }
    Tried {
        count: n,
        saturated: false,
    }
}
