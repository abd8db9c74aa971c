// One width of a table, built in its own part of the arrays: width w has the E places from (w-1) × E on (SPECIFICATION
// 6.2), and the w-th part of the index (7.16). Where a part lies is told here once, so that the loop over the widths
// lends the arrays whole.
#![tactic(auto)]

ghost use Rattle.std.specs.Prelude.{◌≡◌, ◌+◌, ◌*◌, ◌≤◌, ◌<◌, length};
ghost use Rattle.walk.specs.Index.{indexed};
ghost use Rattle.index.specs.Told.{told_by};
ghost use Rattle.known.specs.Known.{told_mode};
ghost use Rattle.murm_config.specs.Told.{told_config};
ghost use Rattle.width_part.specs.Parts.{HasPart, PartBuilt};

use index::LookupBy;
use known::BuildMode;
use murm_config::MurmConfig;
use synthesis_arena::WidthLimits;
use width_record::WidthTable;

// The part of width v + 1 of a table with these limits, with its `size` places of the index.
pub fn build_part(
    mode: BuildMode,
    by: LookupBy,
    config: MurmConfig,
    v: u32,
    size: usize,
    fingerprints: &mut [u64],
    parents: &mut [u32],
    codes: &mut [u32],
    index: &mut [u32],
) -> WidthTable
    requires bounds { (v < 5) × (config.max_gates ≤ 64) × (0 < config.max_entries_per_qubit) × (config.max_entries_per_qubit ≤ 1000000) }
    requires room { (HasPart (told_config config) v fingerprints.old) × (HasPart (told_config config) v parents.old)
        × (HasPart (told_config config) v codes.old) }
    requires index { (v * size + size ≤ length index.old) × (told_by by ≡ indexed → config.max_entries_per_qubit ≤ size) }
    ensures built { PartBuilt (told_mode mode) (told_by by) (told_config config) v size
        fingerprints.old parents.old codes.old index.old
        fingerprints.new parents.new codes.new index.new result }
{
    let basis = config.basis.bits();
    let e = config.max_entries_per_qubit as usize;
    let a = v as usize * e;
    let end = a + e;
    let start = v as usize * size;
    let limits = WidthLimits {
        width: v + 1,
        basis,
        gates: config.max_gates as usize,
        entries: e,
    };
    width_table::build_width(
        mode,
        by,
        limits,
        &mut fingerprints[a..end],
        &mut parents[a..end],
        &mut codes[a..end],
        &mut index[start..start + size],
    )
}
