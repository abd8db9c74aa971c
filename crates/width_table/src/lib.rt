// The table of one width: node 0, then depth by depth each node of the last layer tries each generator (SPECIFICATION
// 6.4 to 6.11).
//
// Why layer by layer: lists of one gate come first, then those of two, and so on, and a product is entered only the
// first time that it is met. So the list by which a product is entered is as short as any that gives it, and an answer
// needs a look-up and no search. Only the last layer has to be tried again: whatever follows an earlier node was tried
// when that node's layer was the last.
//
// Why the two skip rules lose no product: a gate and then its inverse give the product of the list without the two,
// which is shorter and was tried before. Two gates in a row that share no qubit may be exchanged: both orders have one
// product, so that one order is enough, and the one with the lower code first is kept. Each skipped list thus has the
// product of one that is not longer and nearer to being kept, and going on from that list comes to an end at one that
// the walk tried. The model proves it (walk/proofs/Completeness); no table shows it, since a known candidate is skipped
// in any case: the rules save work.
#![tactic(auto)]

ghost use Rattle.std.specs.Prelude.{◌≤◌, ◌<◌};
ghost use Rattle.walk.specs.AtWidth.{built};
ghost use Rattle.index.specs.Told.{told_by};
ghost use Rattle.known.specs.Known.{told_mode};
ghost use Rattle.width_arrays.specs.Arrays.{Long};
ghost use Rattle.width_depths.specs.Depths.{Whole};

use circuit::GateSet;
use index::LookupBy;
use known::BuildMode;
use synthesis_arena::WidthLimits;
use width_record::WidthTable;

// A width: node 0, then depth by depth. Places that no node fills keep what they held.
pub fn build_width(
    mode: BuildMode,
    by: LookupBy,
    limits: WidthLimits,
    fingerprints: &mut [u64],
    parents: &mut [u32],
    codes: &mut [u32],
    index: &mut [u32],
) -> WidthTable
    requires bounds { (limits.width ≤ 5) × (limits.gates ≤ 64) × (0 < limits.entries) × (limits.entries ≤ 1000000) }
    requires long { Long (told_by by) limits fingerprints.old parents.old codes.old index.old }
    ensures whole { Whole (told_by by) limits (built (told_mode mode) limits.width limits.basis limits.gates limits.entries)
        fingerprints.old parents.old codes.old index.old
        fingerprints.new parents.new codes.new index.new result }
{
    let mut gates: [u32; 105] = [0; 105];
    let size = generators::library_gates(limits.width, GateSet(limits.basis), &mut gates);
    width_layer::open_width(by, limits, fingerprints, parents, codes, index);
    if size == 0 {
        return WidthTable {
            count: 1,
            depth: 0,
            saturated: false,
        };
    }
    width_depths::deepen_all(
        mode,
        by,
        limits,
        &gates[0..size],
        fingerprints,
        parents,
        codes,
        index,
    )
}
