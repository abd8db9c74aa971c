// All widths of a table, one after the other, murm.rs of the original, `Murm::build`, below the entry: its checks are
// passed. Each width has its own part of the arrays and of the index (SPECIFICATION 6.2, 7.16), so that the order of
// the widths changes nothing.
#![tactic(auto)]

ghost use Rattle.std.specs.Prelude.{◌≡◌, ◌+◌, ◌*◌, ◌≤◌, ◌<◌, length, false, [], take, drop};
ghost use Rattle.walk.specs.Index.{indexed, kept};
ghost use Rattle.tables.specs.Tables.{record_of, prints_of, parents_of, codes_of, filled_to, index_to, record_row, count_at, within, filled_index};
ghost use Rattle.tables.specs.Checks.{places_of, arrays_by, index_row};
ghost use Rattle.index.specs.Told.{told_by};
ghost use Rattle.known.specs.Known.{told_mode};
ghost use Rattle.murm_config.specs.Told.{told_config, told_murm};

use index::LookupBy;
use known::BuildMode;
use murm_config::{Murm, MurmConfig};

// The widths 1 to Q, one after the other.
pub fn build_widths(
    mode: BuildMode,
    by: LookupBy,
    config: MurmConfig,
    fingerprints: &mut [u64],
    parents: &mut [u32],
    codes: &mut [u32],
    index: &mut [u32],
) -> Murm
    requires bounds { (0 < config.max_qubits) × (config.max_qubits ≤ 5) × (config.max_gates ≤ 64)
        × (0 < config.max_entries_per_qubit) × (config.max_entries_per_qubit ≤ 1000000) }
    requires room { (places_of (told_config config) ≤ length fingerprints.old) × (places_of (told_config config) ≤ length parents.old)
        × (places_of (told_config config) ≤ length codes.old) }
    requires index { (index_row (told_config config) (told_by by) (length index.old)).holds ≡ false }
    ensures rows { told_murm result ≡ record_of (told_mode mode) (told_config config) }
    ensures fingerprints { fingerprints.new ≡ filled_to (prints_of (told_mode mode) (told_config config)) config.max_entries_per_qubit
        config.max_qubits fingerprints.old }
    ensures parents { parents.new ≡ filled_to (parents_of (told_mode mode) (told_config config)) config.max_entries_per_qubit
        config.max_qubits parents.old }
    ensures codes { codes.new ≡ filled_to (codes_of (told_mode mode) (told_config config)) config.max_entries_per_qubit
        config.max_qubits codes.old }
    ensures index { index.new ≡ index_to (told_mode mode) (told_config config) (told_by by) config.max_qubits index.old }
{
    let q = config.max_qubits;
    let size = index.len() / q as usize;
    let mut table = murm_config::empty(config);
    for v in 0..q {
        let row = width_part::build_part(
            mode,
            by,
            config,
            v,
            size,
            fingerprints,
            parents,
            codes,
            index,
        );
        table = murm_config::with_width(table, v + 1, row);
    }
    table
}

// The part of the index of width v + 1 is cleared and filled from the nodes that the width has.
fn fill_part(
    v: usize,
    entries: usize,
    count: usize,
    size: usize,
    fingerprints: &[u64],
    index: &mut [u32],
)
    requires bounds { (v < 5) × (entries ≤ 1000000) × (count ≤ entries) }
    requires room { (v * entries + entries ≤ length fingerprints.now) × (v * size + size ≤ length index.old) }
    ensures filled { index.new ≡ within (v * size) size
        (kept indexed (take entries (drop (v * entries) fingerprints.now)) count) index.old }
{
    let a = v * entries;
    let start = v * size;
    index::fill(
        &mut index[start..start + size],
        &fingerprints[a..a + entries],
        count,
    );
}

// The parts of widths 1 to Q, one after the other (SPECIFICATION 7.17).
pub fn fill_widths(table: Murm, fingerprints: &[u64], index: &mut [u32])
    requires record { (record_row (told_murm table)).holds ≡ false }
    requires room { places_of (told_config table.config) ≤ length fingerprints.now }
    ensures index { index.new ≡ filled_index (told_murm table) (arrays_by indexed fingerprints.now [] [] index.old) }
{
    let q = table.config.max_qubits;
    let e = table.config.max_entries_per_qubit as usize;
    let size = index.len() / q as usize;
    for v in 0..q {
        let count = murm_config::count_at(table, v + 1);
        fill_part(v as usize, e, count, size, fingerprints, index);
    }
}
