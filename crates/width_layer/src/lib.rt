// A width, layer by layer: node 0, and one depth more, in which each node of the last layer tries each generator
// (SPECIFICATION 6.3 to 6.8). Only the last layer is tried: whatever follows an earlier node was tried when that node's
// layer was the last. How many depths there are is decided above this crate.
#![tactic(auto)]

ghost use Rattle.std.specs.Prelude.{◌≡◌, [], ◌∷◌, ◌≤◌, ◌<◌, length};
ghost use Rattle.generators.specs.Generators.{generators};
ghost use Rattle.walk.specs.Walk.{root};
ghost use Rattle.index.specs.Told.{told_by};
ghost use Rattle.known.specs.Known.{told_mode};
ghost use Rattle.width_arrays.specs.Arrays.{Columns, Live};
ghost use Rattle.width_layer.specs.Layer.{LayerTried};

use cyclotomic::Coefficient;
use index::LookupBy;
use known::BuildMode;
use synthesis_arena::WidthLimits;
use width_arrays::Tried;

// A width is opened: its part of the index is cleared, and node 0, the identity, is put into the arrays and the part.
pub fn open_width(
    by: LookupBy,
    limits: WidthLimits,
    fingerprints: &mut [u64],
    parents: &mut [u32],
    codes: &mut [u32],
    index: &mut [u32],
)
    requires narrow { limits.width ≤ 5 }
    requires room { (0 < length fingerprints.old) × (0 < length parents.old) × (0 < length codes.old) }
    ensures opened { Columns (told_by by) limits
        fingerprints.old parents.old codes.old index.old (root ∷ [])
        fingerprints.new parents.new codes.new index.new 1 }
{
    let n = limits.width as usize;
    let mut data: [Coefficient; 4096] = [0; 4096];
    identity::put_identity(&mut data, n);
    let print = prints::unitary_fingerprint(&data, n, 0);
    width_arrays::put_root(by, print, fingerprints, parents, codes, index);
}

// One depth: each node of the last layer in order, from number `first` up to the count.
pub fn deepen(
    mode: BuildMode,
    by: LookupBy,
    limits: WidthLimits,
    first: usize,
    count: usize,
    gates: &[u32],
    fingerprints: &mut [u64],
    parents: &mut [u32],
    codes: &mut [u32],
    index: &mut [u32],
) -> Tried
    requires bounds { (limits.width ≤ 5) × (first ≤ count) × (limits.entries ≤ 1000000) × (limits.gates ≤ 64) }
    requires generators { gates.now ≡ generators limits.width limits.basis }
    requires live { Live (told_mode mode) (told_by by) limits fingerprints.old parents.old codes.old index.old count first count }
    ensures tried { LayerTried (told_mode mode) (told_by by) limits first count
        fingerprints.old parents.old codes.old index.old
        fingerprints.new parents.new codes.new index.new result }
{
    let one = identity::identity_data(limits.width as usize);
    let mut m = one;
    let mut left = one;
    let mut right = one;
    let mut n = count;
    for node in first..count {
        let t = candidates::try_node(
            mode,
            by,
            limits,
            n,
            node,
            gates,
            fingerprints,
            parents,
            codes,
            index,
            &one,
            &mut m,
            &mut left,
            &mut right,
        );
        n = t.count;
        if t.saturated {
            return Tried {
                count: n,
                saturated: true,
            };
        }
    }
    Tried {
        count: n,
        saturated: false,
    }
}
