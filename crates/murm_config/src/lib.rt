// The record of a table, murm.rs of the original, `Murm`, whose nodes are in three lent arrays: its rows by width, and
// the rows 13, 5, 17, 16, 12 that stand before whatever is asked of it. Its limits, and what these alone decide, are in
// murm_limits.
#![tactic(auto)]

ghost use Rattle.std.specs.Prelude.{◌≡◌, ◌++◌, ◌<◌, ◌≤◌};
ghost use Rattle.tables.specs.Checks.{first_row};
ghost use Rattle.tables.specs.Tables.{all_widths, width_at, bad_count, record_row, table_rows, look_rows, count_at, node_rows};
ghost use Rattle.walk.specs.Walk.{any};
ghost use Rattle.refusal.specs.Told.{by_row, told_check};
ghost use Rattle.index.specs.Told.{told_by};
ghost use Rattle.murm_config.specs.Told.{told_config, told_width, told_murm, with_width, empty_of};

use index::LookupBy;
pub use murm_limits::{MurmConfig, check_build};
use refusal::Refusal;
use width_record::WidthTable;

// What a build returns, the record: its limits, and for each width how many nodes, the completed depth, whether it is
// saturated (SPECIFICATION 6.10).
#[derive(Clone, Copy)]
pub struct Murm {
    pub config: MurmConfig,
    pub width1: WidthTable,
    pub width2: WidthTable,
    pub width3: WidthTable,
    pub width4: WidthTable,
    pub width5: WidthTable,
}

// A width's row of the record; for another number that of a width that was not built.
pub fn width_table(table: Murm, width: u32) -> WidthTable
    ensures { told_width result ≡ width_at (told_murm table) width }
{
    match width {
        1 => table.width1,
        2 => table.width2,
        3 => table.width3,
        4 => table.width4,
        5 => table.width5,
        _ => WidthTable {
            count: 0,
            depth: 0,
            saturated: false,
        },
    }
}

// The same of any width.
fn bad_counts(table: Murm) -> bool
    ensures { result ≡ any (bad_count (told_murm table)) all_widths }
{
    let q = table.config.max_qubits;
    let e = table.config.max_entries_per_qubit;
    murm_limits::bad_count(1, q, e, table.width1.count)
        || murm_limits::bad_count(2, q, e, table.width2.count)
        || murm_limits::bad_count(3, q, e, table.width3.count)
        || murm_limits::bad_count(4, q, e, table.width4.count)
        || murm_limits::bad_count(5, q, e, table.width5.count)
}

// Row 13 of the record: whether one of the rows 1 to 4 refuses its limits, or a count is bad (SPECIFICATION 9.3).
pub fn bad_record(table: Murm) -> bool
    ensures { result ≡ (record_row (told_murm table)).holds }
{
    murm_limits::limits(table.config).is_err() || bad_counts(table)
}

// Whether a table with arrays of these lengths may be asked; else 13 of the record or 5 (SPECIFICATION 9.2).
pub fn check_table(table: Murm, prints: usize, parents: usize, codes: usize) -> Result<(), Refusal>
    ensures { told_check result ≡ by_row (first_row (table_rows (told_murm table) prints parents codes)) }
{
    if bad_record(table) {
        return Err(Refusal::BadTable);
    }
    if murm_limits::too_short(table.config, prints, parents, codes) {
        return Err(Refusal::ArrayTooShort);
    }
    Ok(())
}

// Whether nodes of a table with arrays and an index of these lengths may be looked up; else 13 of the record, 5 or 17
// (SPECIFICATION 9.2).
pub fn check_look(
    by: LookupBy,
    table: Murm,
    prints: usize,
    parents: usize,
    codes: usize,
    places: usize,
) -> Result<(), Refusal>
    requires { places < 2305843009213693952 }
    ensures { told_check result ≡ by_row (first_row (look_rows (told_murm table) (told_by by) prints parents codes places)) }
{
    check_table(table, prints, parents, codes)?;
    if murm_limits::bad_index(by, table.config, places) {
        return Err(Refusal::BadIndex);
    }
    Ok(())
}

// How many entries a width has: none where the table does not have the width, whatever the record says (SPECIFICATION
// 7.3).
pub fn count_at(table: Murm, width: u32) -> usize
    ensures { result ≡ count_at (told_murm table) width }
{
    if width > table.config.max_qubits {
        return 0;
    }
    width_table(table, width).count
}

// Whether a width has the node, and a list of so many places room for the longest; else 16 or 12.
fn check_node(table: Murm, width: u32, node: usize, room: usize) -> Result<(), Refusal>
    ensures { told_check result ≡ by_row (first_row (node_rows (told_murm table) width node room)) }
{
    if node >= count_at(table, width) {
        return Err(Refusal::NoSuchNode);
    }
    if room < table.config.max_gates as usize {
        return Err(Refusal::ListTooShort);
    }
    Ok(())
}

// Whether the list of a node may be written; else which row of a write is the first to refuse (SPECIFICATION 9.2).
pub fn check_write(
    table: Murm,
    prints: usize,
    parents: usize,
    codes: usize,
    width: u32,
    node: usize,
    room: usize,
) -> Result<(), Refusal>
    ensures { told_check result ≡ by_row (first_row (table_rows (told_murm table) prints parents codes ++ node_rows (told_murm table) width node room)) }
{
    check_table(table, prints, parents, codes)?;
    check_node(table, width, node, room)
}

// The record before any width is built.
pub fn empty(config: MurmConfig) -> Murm
    ensures { told_murm result ≡ empty_of (told_config config) }
{
    let none = WidthTable {
        count: 0,
        depth: 0,
        saturated: false,
    };
    Murm {
        config,
        width1: none,
        width2: none,
        width3: none,
        width4: none,
        width5: none,
    }
}

// The record with another row for a width from 1 to 5.
pub fn with_width(table: Murm, width: u32, row: WidthTable) -> Murm
    requires { (0 < width) × (width ≤ 5) }
    ensures { told_murm result ≡ with_width (told_murm table) width (told_width row) }
{
    let mut new = table;
    match width {
        1 => {
            new.width1 = row;
        }
        2 => {
            new.width2 = row;
        }
        3 => {
            new.width3 = row;
        }
        4 => {
            new.width4 = row;
        }
        _ => {
            new.width5 = row;
        }
    }
    new
}
