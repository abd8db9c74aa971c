// The public entries: none asks anything of its caller, and each decides every input (SPECIFICATION 8.1). Queries,
// lists, builds and the search stand in crates of their own, named here, so that an edit of one is proved without the
// others; here are the entries that find, write and answer, and those by the scan. The entries that end in `_by` take
// how nodes are looked up, and an index for it; those without are by the scan. `build_by` takes a mode too; `build` is
// by the fingerprint. An entry takes lent slices and numbers, one by one; the functions below it take them as `Lent`,
// what is lent of a table, and `Query`, a matrix that is asked.
#![tactic(auto)]

ghost use Rattle.std.specs.Prelude.{◌≡◌, false, length};
ghost use Rattle.walk.specs.Answers.{outcome as replied};
ghost use Rattle.walk.specs.Modes.{by_print};
ghost use Rattle.tables.specs.Checks.{arrays, arrays_by, room_row};
ghost use Rattle.tables.specs.Tables.{left, build_of, query, record_row, found_in, written_in, synthesized};
ghost use Rattle.tables.proofs.Asked.{part_found};
ghost use Rattle.index.specs.Told.{told_by};
ghost use Rattle.murm_config.specs.Told.{told_config, told_murm};
ghost use Rattle.murm_query.specs.Entries.{told_query};
ghost use Rattle.murm_query.specs.Work.{Askable};
ghost use Rattle.murm_build.specs.Entries.{told_building};
ghost use Rattle.murm_part.specs.Told.{told_lent};
ghost use Rattle.murm_find.specs.Entries.{told_synthesized};
ghost use Rattle.murm.specs.Entries.{told_found_node, told_written};
ghost use Rattle.murm.specs.Work.{Writable, node_written};

use cyclotomic::Coefficient;
use index::LookupBy;
use known::BuildMode;
pub use murm_build::{build_by, fill_index};
use murm_config::{Murm, MurmConfig};
pub use murm_lists::library_circuit_matrix;
use murm_part::Lent;
use murm_query::Query;
pub use murm_query::library_fingerprint;
use refusal::Refusal;

// The same where a fingerprint alone makes known, by the scan.
pub fn build(
    config: MurmConfig,
    fingerprints: &mut [u64],
    parents: &mut [u32],
    codes: &mut [u32],
) -> Result<Murm, Refusal>
    ensures { left (told_building result) (arrays fingerprints.new parents.new codes.new)
        ≡ build_of by_print (told_config config) (arrays fingerprints.old parents.old codes.old) }
{
    let mut none: [u32; 1] = [0; 1];
    murm_build::build_by(
        BuildMode::ByPrint,
        LookupBy::Scan,
        config,
        fingerprints,
        parents,
        codes,
        &mut none[0..0],
    )
}

// A find that no row refuses: a node, and how many gates its list has, or none. The list is not kept.
fn find_passed(
    table: Murm,
    lent: Lent<'_>,
    query: Query<'_>,
) -> Result<Option<(usize, usize)>, Refusal>
    requires table_value { (record_row (told_murm table)).holds ≡ false }
    requires codes_value { (room_row (told_config table.config) (told_lent lent)).holds ≡ false }
    requires matrix_value { Askable (told_query query) }
    ensures { told_found_node result ≡ part_found (told_murm table) (told_lent lent.entry) (told_query query.entry) }
{
    let config = table.config;
    let count = murm_config::count_at(table, query.width);
    let mut list: [u32; 64] = [0; 64];
    Ok(murm_find::find_any(config, lent, query, count, &mut list)?)
}

// The node that answers a matrix is found (SPECIFICATION 7.10): 13 of the record, then 5, 17, 6, 9, 10, 11, then 13 of
// a chain that is met.
pub fn find_by(
    by: LookupBy,
    table: Murm,
    fingerprints: &[u64],
    parents: &[u32],
    codes: &[u32],
    index: &[u32],
    width: u32,
    exponent: u16,
    matrix: &[Coefficient],
) -> Result<Option<(usize, usize)>, Refusal>
    ensures { told_found_node result ≡ found_in (told_murm table)
        (arrays_by (told_by by) fingerprints.now parents.now codes.now index.now)
        (query width exponent matrix.now) }
{
    let lent = Lent {
        by,
        fingerprints,
        parents,
        codes,
        index,
    };
    let query = Query {
        width,
        exponent,
        matrix,
    };
    murm_find::check_lent(table, lent, query)?;
    find_passed(table, lent, query)
}

// The same by the scan.
pub fn find(
    table: Murm,
    fingerprints: &[u64],
    parents: &[u32],
    codes: &[u32],
    width: u32,
    exponent: u16,
    matrix: &[Coefficient],
) -> Result<Option<(usize, usize)>, Refusal>
    ensures { told_found_node result ≡ found_in (told_murm table)
        (arrays fingerprints.now parents.now codes.now) (query width exponent matrix.now) }
{
    let none: [u32; 1] = [0; 1];
    find_by(
        LookupBy::Scan,
        table,
        fingerprints,
        parents,
        codes,
        &none[0..0],
        width,
        exponent,
        matrix,
    )
}

// The list of a node that the width has: how many gates it has.
fn write_part(
    table: Murm,
    parents: &[u32],
    codes: &[u32],
    width: u32,
    node: usize,
    out: &mut [u32],
) -> Result<usize, Refusal>
    requires { Writable (told_murm table) width node (length parents.now) (length codes.now) (length out.old) }
    ensures { replied (told_written result) out.new ≡ node_written (told_murm table) parents.now codes.now width node out.old }
{
    let e = table.config.max_entries_per_qubit as usize;
    let start = (width as usize - 1) * e;
    let end = start + e;
    Ok(synthesis_arena::circuit(
        &parents[start..end],
        &codes[start..end],
        width,
        table.config.basis,
        table.config.max_gates as usize,
        node,
        out,
    )?)
}

// The list of a node is written (SPECIFICATION 7.11): 13 of the record, then 5, 16, 12, then 13 of the node's chain.
// The lent list keeps what it held unless a list is written, which fills its first places. Its product is not looked
// at.
pub fn write(
    table: Murm,
    fingerprints: &[u64],
    parents: &[u32],
    codes: &[u32],
    width: u32,
    node: usize,
    out: &mut [u32],
) -> Result<usize, Refusal>
    ensures { replied (told_written result) out.new ≡ written_in (told_murm table)
        (arrays fingerprints.now parents.now codes.now) width node out.old }
{
    murm_config::check_write(
        table,
        fingerprints.len(),
        parents.len(),
        codes.len(),
        width,
        node,
        out.len(),
    )?;
    write_part(table, parents, codes, width, node, out)
}

// A matrix is answered (SPECIFICATION, chapter 7): 13 of the record, then 5, 17, 6, 9, 10, 11, 12; then it is the find,
// followed by the write of the node found. The lent list keeps what it held unless a list is answered, which fills its
// first places.
pub fn synthesize_by(
    by: LookupBy,
    table: Murm,
    fingerprints: &[u64],
    parents: &[u32],
    codes: &[u32],
    index: &[u32],
    width: u32,
    exponent: u16,
    matrix: &[Coefficient],
    out: &mut [u32],
) -> Result<Option<usize>, Refusal>
    ensures { replied (told_synthesized result) out.new ≡ synthesized (told_murm table)
        (arrays_by (told_by by) fingerprints.now parents.now codes.now index.now)
        (query width exponent matrix.now) out.old }
{
    let lent = Lent {
        by,
        fingerprints,
        parents,
        codes,
        index,
    };
    let query = Query {
        width,
        exponent,
        matrix,
    };
    murm_find::check_lent(table, lent, query)?;
    murm_find::ask(table, lent, query, out)
}

// The same by the scan.
pub fn synthesize(
    table: Murm,
    fingerprints: &[u64],
    parents: &[u32],
    codes: &[u32],
    width: u32,
    exponent: u16,
    matrix: &[Coefficient],
    out: &mut [u32],
) -> Result<Option<usize>, Refusal>
    ensures { replied (told_synthesized result) out.new
        ≡ synthesized (told_murm table) (arrays fingerprints.now parents.now codes.now) (query width exponent matrix.now) out.old }
{
    let none: [u32; 1] = [0; 1];
    synthesize_by(
        LookupBy::Scan,
        table,
        fingerprints,
        parents,
        codes,
        &none[0..0],
        width,
        exponent,
        matrix,
        out,
    )
}
