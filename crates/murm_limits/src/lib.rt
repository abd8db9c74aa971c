// The limits of a table: config.rs of the original, `MurmConfig`; and what they ask of lent memory, rows 1 to 5 and 17,
// and of a width's count. No record is needed for these, so they stand below it, where an edit of a test is proved in
// seconds.
#![tactic(auto)]

ghost use Rattle.std.specs.Prelude.{◌≡◌, [], ◌∷◌, ◌++◌, ◌<◌, ◌≤◌};
ghost use Rattle.tables.specs.Checks.{first_row, limit_rows, too_short, short_row, in_parts, index_row};
ghost use Rattle.tables.specs.Tables.{bad_count_of};
ghost use Rattle.refusal.specs.Told.{by_row, told_check};
ghost use Rattle.index.specs.Told.{told_by};
ghost use Rattle.murm_limits.specs.Told.{told_config};

use circuit::GateSet;
use index::LookupBy;
use refusal::Refusal;

// The width limit Q, the gate limit G, the entry limit E and the basis B (SPECIFICATION 6.1).
#[derive(Clone, Copy)]
pub struct MurmConfig {
    pub max_qubits: u32,
    pub max_gates: u32,
    pub max_entries_per_qubit: u32,
    pub basis: GateSet,
}

// Whether the limits may be built with; else which of the rows 1 to 4 is the first to refuse them (SPECIFICATION 9.1).
pub fn limits(config: MurmConfig) -> Result<(), Refusal>
    ensures { told_check result ≡ by_row (first_row (limit_rows (told_config config))) }
{
    if config.max_qubits == 0 || config.max_qubits > 5 {
        return Err(Refusal::WidthLimit);
    }
    if config.max_entries_per_qubit == 0 {
        return Err(Refusal::NoEntries);
    }
    let basis = config.basis;
    if basis.is_empty() || !basis.is_supported() {
        return Err(Refusal::Basis);
    }
    if config.max_gates > 64 || config.max_entries_per_qubit > 1000000 {
        return Err(Refusal::TooLarge);
    }
    Ok(())
}

// Row 5: whether one of three arrays of these lengths has fewer than Q × E places (SPECIFICATION 9.1).
pub fn too_short(config: MurmConfig, prints: usize, parents: usize, codes: usize) -> bool
    requires { (config.max_qubits ≤ 5) × (config.max_entries_per_qubit ≤ 1000000) }
    ensures { result ≡ too_short (told_config config) prints parents codes }
{
    let size = config.max_qubits as usize * config.max_entries_per_qubit as usize;
    prints < size || parents < size || codes < size
}

// Whether an index of so many places is one part for each width up to Q, all of one size, a power of two and at least
// twice E (SPECIFICATION 7.16). The bound is that of any slice of 32-bit places.
fn in_parts(config: MurmConfig, places: usize) -> bool
    requires { (0 < config.max_qubits) × (config.max_qubits ≤ 5) × (config.max_entries_per_qubit ≤ 1000000) × (places < 2305843009213693952) }
    ensures { result ≡ in_parts (told_config config) places }
{
    let q = config.max_qubits as usize;
    let e = config.max_entries_per_qubit as usize;
    let size = places / q;
    q * size == places && size.is_power_of_two() && size >= 2 * e
}

// Row 17: whether the look-up is by an index of so many places that is not such parts; the scan asks for none
// (SPECIFICATION 9.1).
pub fn bad_index(by: LookupBy, config: MurmConfig, places: usize) -> bool
    requires { (0 < config.max_qubits) × (config.max_qubits ≤ 5) × (config.max_entries_per_qubit ≤ 1000000) × (places < 2305843009213693952) }
    ensures { result ≡ (index_row (told_config config) (told_by by) places).holds }
{
    match by {
        LookupBy::Scan => false,
        LookupBy::Index => !in_parts(config, places),
    }
}

// Whether a table may be built in arrays and an index of these lengths; else which of the rows 1 to 5 and 17 is the
// first to refuse (SPECIFICATION 9.2).
pub fn check_build(
    by: LookupBy,
    config: MurmConfig,
    prints: usize,
    parents: usize,
    codes: usize,
    places: usize,
) -> Result<(), Refusal>
    requires { places < 2305843009213693952 }
    ensures { told_check result ≡ by_row (first_row (limit_rows (told_config config)
        ++ (short_row (told_config config) prints parents codes ∷ index_row (told_config config) (told_by by) places ∷ []))) }
{
    limits(config)?;
    if too_short(config, prints, parents, codes) {
        return Err(Refusal::ArrayTooShort);
    }
    if bad_index(by, config, places) {
        return Err(Refusal::BadIndex);
    }
    Ok(())
}

// Whether a width up to Q has a count that is 0 or above E (SPECIFICATION 9.3).
pub fn bad_count(width: u32, qubits: u32, entries: u32, count: usize) -> bool
    ensures { result ≡ bad_count_of qubits entries width count }
{
    width <= qubits && (count == 0 || count > entries as usize)
}
