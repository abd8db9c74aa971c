// A table is built, and its index filled: murm.rs of the original, `Murm::build`. The rows come first, then the widths
// one by one (murm_widths): what a refusal must not change is decided here, and nowhere below.
#![tactic(auto)]

ghost use Rattle.std.specs.Prelude.{◌≡◌};
ghost use Rattle.walk.specs.Index.{indexed};
ghost use Rattle.tables.specs.Checks.{arrays_by};
ghost use Rattle.tables.specs.Tables.{left, build_of, fill_left, fill_of};
ghost use Rattle.index.specs.Told.{told_by};
ghost use Rattle.known.specs.Known.{told_mode};
ghost use Rattle.murm_config.specs.Told.{told_config, told_murm};
ghost use Rattle.murm_build.specs.Entries.{told_building, told_filling};

use index::LookupBy;
use known::BuildMode;
use murm_config::{Murm, MurmConfig};
use refusal::Refusal;

// A table is built in a mode (SPECIFICATION, chapter 6): rows 1, 2, 3, 4, 5, 17. A refusal leaves the three arrays and
// the index as they were; else widths 1 to Q are filled, and all other places keep what they held. By the index, each
// part is cleared and kept up: it is left as `fill_index` would.
pub fn build_by(
    mode: BuildMode,
    by: LookupBy,
    config: MurmConfig,
    fingerprints: &mut [u64],
    parents: &mut [u32],
    codes: &mut [u32],
    index: &mut [u32],
) -> Result<Murm, Refusal>
    ensures { left (told_building result)
        (arrays_by (told_by by) fingerprints.new parents.new codes.new index.new)
        ≡ build_of (told_mode mode) (told_config config)
        (arrays_by (told_by by) fingerprints.old parents.old codes.old index.old) }
{
    murm_config::check_build(
        by,
        config,
        fingerprints.len(),
        parents.len(),
        codes.len(),
        index.len(),
    )?;
    let table = murm_widths::build_widths(mode, by, config, fingerprints, parents, codes, index);
    Ok(table)
}

// The index is cleared and filled from a table, nodes rising (SPECIFICATION 7.17): 13 of the record, then 5, 17. A
// refusal leaves it as it was.
pub fn fill_index(
    table: Murm,
    fingerprints: &[u64],
    parents: &[u32],
    codes: &[u32],
    index: &mut [u32],
) -> Result<(), Refusal>
    ensures { fill_left (told_filling result) index.new ≡ fill_of (told_murm table)
        (arrays_by indexed fingerprints.now parents.now codes.now index.old) }
{
    murm_config::check_look(
        LookupBy::Index,
        table,
        fingerprints.len(),
        parents.len(),
        codes.len(),
        index.len(),
    )?;
    murm_widths::fill_widths(table, fingerprints, index);
    Ok(())
}
