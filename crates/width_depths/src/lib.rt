// The depths of a width, 1 to G, from node 0 on (SPECIFICATION 6.4, 6.9, 6.10): a depth that is walked to its end is
// completed, one that adds no node is the last, and one in which the width is saturated does not count. A crate of its
// own, so that what ends a build is proved apart from the layers.
#![tactic(auto)]

ghost use Rattle.std.specs.Prelude.{◌≡◌, ◌≤◌};
ghost use Rattle.generators.specs.Generators.{generators};
ghost use Rattle.index.specs.Told.{told_by};
ghost use Rattle.known.specs.Known.{told_mode};
ghost use Rattle.width_depths.specs.Depths.{Start, Deepened};

use index::LookupBy;
use known::BuildMode;
use synthesis_arena::WidthLimits;
use width_record::WidthTable;

// Depths 1 to G: a depth that is walked to its end is completed, and one that adds no node is the last.
pub fn deepen_all(
    mode: BuildMode,
    by: LookupBy,
    limits: WidthLimits,
    gates: &[u32],
    fingerprints: &mut [u64],
    parents: &mut [u32],
    codes: &mut [u32],
    index: &mut [u32],
) -> WidthTable
    requires bounds { (limits.width ≤ 5) × (limits.gates ≤ 64) × (limits.entries ≤ 1000000) }
    requires generators { gates.now ≡ generators limits.width limits.basis }
    requires start { Start (told_by by) limits fingerprints.old parents.old codes.old index.old }
    ensures deepened { Deepened (told_mode mode) (told_by by) limits
        fingerprints.old parents.old codes.old index.old
        fingerprints.new parents.new codes.new index.new result }
{
    let mut n = 1;
    let mut first = 0;
    for d in 0..limits.gates {
        let t = width_layer::deepen(
            mode,
            by,
            limits,
            first,
            n,
            gates,
            fingerprints,
            parents,
            codes,
            index,
        );
        if t.saturated {
            return WidthTable {
                count: t.count,
                depth: d, // the depth at which the width is saturated does not count
                saturated: true,
            };
        }
        if t.count == n {
            return WidthTable {
                count: n,
                depth: d + 1,
                saturated: false,
            };
        }
        first = n;
        n = t.count;
    }
    WidthTable {
        count: n,
        depth: limits.gates,
        saturated: false,
    }
}
