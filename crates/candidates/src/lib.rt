// The candidates of one node: each generator after it, in order (SPECIFICATION 6.4 to 6.8). The node's matrix is formed
// once. Gates that the two skip rules prune, or whose step does not fit, are left out first; the fingerprints of the
// others are worked two by two, and all are looked up ahead through the index, so that waits for memory overlap. By the
// scan each is looked up once, when its turn comes. Each of these steps is a function of a crate below, where the edits
// of it stand: this crate only joins them.
#![tactic(auto)]

ghost use Rattle.std.specs.Prelude.{◌≡◌, suc, ◌≤◌, ◌<◌};
ghost use Rattle.generators.specs.Generators.{generators};
ghost use Rattle.exact.specs.Matrix.{identity};
ghost use Rattle.places.specs.Held.{Holds};
ghost use Rattle.index.specs.Told.{told_by};
ghost use Rattle.known.specs.Known.{told_mode};
ghost use Rattle.width_arrays.specs.Arrays.{Live};
ghost use Rattle.candidates.specs.Tries.{NodeTried, Lent};

use cyclotomic::Coefficient;
use index::{LookupBy, Part};
use known::BuildMode;
use synthesis_arena::WidthLimits;
use width_arrays::Tried;

// One node: each generator, in order. The node's matrix is formed in `m`, two candidates in `left` and `right`, where a
// recheck forms its product too; `one` has the identity.
pub fn try_node(
    mode: BuildMode,
    by: LookupBy,
    limits: WidthLimits,
    count: usize,
    node: usize,
    gates: &[u32],
    fingerprints: &mut [u64],
    parents: &mut [u32],
    codes: &mut [u32],
    index: &mut [u32],
    one: &[Coefficient],
    m: &mut [Coefficient; 4096],
    left: &mut [Coefficient; 4096],
    right: &mut [Coefficient; 4096],
) -> Tried
    requires bounds { (limits.width ≤ 5) × (node < count) × (limits.entries ≤ 1000000) × (limits.gates ≤ 64) }
    requires generators { gates.now ≡ generators limits.width limits.basis }
    requires live { Live (told_mode mode) (told_by by) limits fingerprints.old parents.old codes.old index.old count node (suc node) }
    requires identity { Holds limits.width 0 one.now identity }
    requires lent { Lent m.old left.old right.old }
    ensures tried { NodeTried (told_mode mode) (told_by by) limits count node
        fingerprints.old parents.old codes.old index.old
        fingerprints.new parents.new codes.new index.new result }
    ensures lent { Lent m.new left.new right.new }
{
    let mut kept: [u32; 105] = [0; 105];
    let size = skip_rules::unpruned(node, gates, codes, &mut kept);
    let exponent = node_matrix::form_node(limits, node, parents, codes, one, m);
    let mut prints: [u64; 105] = [0; 105];
    let n = limits.width as usize;
    let fit = fitting_gates::fitting(n, exponent, size, &mut kept, &mut prints, m, left, right);
    let mut nodes: [u32; 105] = [0; 105];
    let part = Part {
        by,
        count,
        fingerprints,
        parents,
        codes,
        index,
    };
    looked_ahead::look_ahead(part, fit, &prints, &mut nodes);
    tried_gates::try_gates(
        mode,
        by,
        limits,
        count,
        node,
        exponent,
        &kept[0..fit],
        &prints[0..fit],
        &nodes[0..fit],
        fingerprints,
        parents,
        codes,
        index,
        m,
        left,
        right,
    )
}
