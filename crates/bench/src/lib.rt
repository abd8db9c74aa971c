// C functions over the entries for fingerprints, builds, fills, finds and writes, and for answers by either look-up,
// which murm_c does not export, and nothing else. `oracle/bench`, `oracle/damage` and `oracle/index` link both crates
// beside the original, in one process; lists and answers by the scan alone they ask by murm_c. Where nodes are looked
// up, a number says how: 0 by the scan, which leaves the lent index alone, any other through the index.
#![tactic(auto)]

ghost use Rattle.std.specs.Prelude.{◌≡◌, ◌+◌, ◌*◌, ◌^◌, ◌≤◌, length};
ghost use Rattle.std.proofs.lemmas.List.Edits.{sets};
ghost use Rattle.ints.specs.Lists.{over};
ghost use Rattle.exact.proofs.Words.{AllSmall};
ghost use Rattle.exact.specs.Fingerprint.{fingerprint};
ghost use Rattle.exact.specs.Places.{read, held};
ghost use Rattle.walk.specs.Index.{indexed};
ghost use Rattle.index.specs.Told.{told_by};
ghost use Rattle.known.specs.Known.{told_mode};
ghost use Rattle.tables.specs.Checks.{limits_of, arrays, arrays_by};
ghost use Rattle.tables.specs.Tables.{query, fill_of, found_in, written_in, synthesized};
ghost use Rattle.murm_config.specs.Told.{told_config, told_width, told_murm};
ghost use Rattle.murm_query.specs.Fingerprints.{fingerprinted};
ghost use Rattle.murm_build.specs.Entries.{told_building, told_filling};
ghost use Rattle.murm.specs.Entries.{told_found_node, told_written};
ghost use Rattle.murm_c.specs.Numbers.{reply_number, counts_table};
ghost use Rattle.bench.specs.Numbers.{given_or, by_number, mode_number, node_number, found_number, fill_number};
ghost use Rattle.bench.specs.Tables.{limits_of_numbers, width_numbers, numbers_of, build_number, recorded, built_as, bench_built};

use circuit::GateSet;
use cyclotomic::Coefficient;
use index::LookupBy;
use known::BuildMode;
use murm_config::{Murm, MurmConfig};
use refusal::Refusal;
use width_record::WidthTable;

// The entry for fingerprints: the fingerprint, or 0 for every refusal.
#[unsafe(no_mangle)]
pub extern "C" fn bench_query(width: u32, exponent: u16, entries: &[Coefficient]) -> u64
    ensures { result ≡ given_or 0 (fingerprinted width exponent entries.now) }
{
    murm::library_fingerprint(width, exponent, entries).unwrap_or(0)
}

// The fingerprint below the entry, which tests nothing.
#[unsafe(no_mangle)]
pub extern "C" fn bench_fingerprint(m: &[Coefficient], n: usize, k: u16) -> u64
    requires n_bound { n ≤ 5 }
    requires n_in_bounds { 4 * (2 ^ n * 2 ^ n) ≤ length m.now }
    requires all_small { AllSmall n (read n m.now) }
    ensures { result ≡ fingerprint n (held n k m.now) }
{
    prints::unitary_fingerprint(m, n, k)
}

// Q, G, E and B, in this order.
fn config_of(limits: &[u32]) -> MurmConfig
    requires { 4 ≤ length limits.now }
    ensures { told_config result ≡ limits_of_numbers limits.now }
{
    MurmConfig {
        max_qubits: limits[0],
        max_gates: limits[1],
        max_entries_per_qubit: limits[2],
        basis: GateSet(limits[3]),
    }
}

// A record as 15 numbers: count, depth and saturated (0 or 1) of each width from 1 to 5. Those of a width stand from a
// place on.
fn put_width(numbers: &mut [u64], at: usize, row: WidthTable)
    requires { at + 3 ≤ length numbers.old }
    ensures { numbers.new ≡ sets numbers.old at (width_numbers (told_width row)) }
{
    numbers[at] = row.count as u64;
    numbers[at + 1] = row.depth as u64;
    numbers[at + 2] = circuits_text::digit(row.saturated);
}

fn put_record(numbers: &mut [u64], table: Murm)
    requires { 15 ≤ length numbers.old }
    ensures { numbers.new ≡ over (numbers_of (told_murm table)) numbers.old }
{
    put_width(numbers, 0, table.width1);
    put_width(numbers, 3, table.width2);
    put_width(numbers, 6, table.width3);
    put_width(numbers, 9, table.width4);
    put_width(numbers, 12, table.width5);
}

// What a build came to: 0, with the record, or the number of the refusal.
fn built(building: Result<Murm, Refusal>, numbers: &mut [u64]) -> u64
    requires { 15 ≤ length numbers.old }
    ensures value { result ≡ build_number (told_building building) }
    ensures numbers_after { numbers.new ≡ recorded (told_building building) numbers.old }
{
    match building {
        Ok(table) => {
            put_record(numbers, table);
            0
        }
        Err(why) => refusal::number_of(why).0,
    }
}

// How nodes are looked up.
fn lookup_by(by: u32) -> LookupBy
    ensures { told_by result ≡ by_number by }
{
    if by == 0 {
        return LookupBy::Scan;
    }
    LookupBy::Index
}

// What makes a candidate known.
fn mode_of(mode: u32) -> BuildMode
    ensures { told_mode result ≡ mode_number mode }
{
    if mode == 0 {
        return BuildMode::ByPrint;
    }
    BuildMode::Keeping
}

// The entry for tables. 99 for less than four limits, or a record of less than 15 places.
#[unsafe(no_mangle)]
pub extern "C" fn bench_build(
    mode: u32,
    by: u32,
    limits: &[u32],
    fingerprints: &mut [u64],
    parents: &mut [u32],
    codes: &mut [u32],
    index: &mut [u32],
    numbers: &mut [u64],
) -> u64
    ensures { built_as result
        (arrays_by (by_number by) fingerprints.new parents.new codes.new index.new) numbers.new
        ≡ bench_built (mode_number mode) limits.now
        (arrays_by (by_number by) fingerprints.old parents.old codes.old index.old) numbers.old }
{
    if limits.len() < 4 || numbers.len() < 15 {
        return 99;
    }
    let building = murm::build_by(
        mode_of(mode),
        lookup_by(by),
        config_of(limits),
        fingerprints,
        parents,
        codes,
        index,
    );
    built(building, numbers)
}

// What a fill came to: 0, or the number of the refusal.
fn filled(filling: Result<(), Refusal>) -> u64
    ensures { result ≡ fill_number (told_filling filling) }
{
    match filling {
        Ok(()) => 0,
        Err(why) => refusal::number_of(why).0,
    }
}

// The entry for fills of an index (SPECIFICATION 7.17), with the table's record as numbers.
#[unsafe(no_mangle)]
pub extern "C" fn bench_fill(
    q: u32,
    g: u32,
    e: u32,
    b: u32,
    count1: usize,
    count2: usize,
    count3: usize,
    count4: usize,
    count5: usize,
    fingerprints: &[u64],
    parents: &[u32],
    codes: &[u32],
    index: &mut [u32],
) -> u64
    ensures number { result ≡ fill_number (fill_of (counts_table (limits_of q g e b) count1 count2 count3 count4 count5)
        (arrays_by indexed fingerprints.now parents.now codes.now index.old)).reply }
    ensures places { index.new ≡ (fill_of (counts_table (limits_of q g e b) count1 count2 count3 count4 count5)
        (arrays_by indexed fingerprints.now parents.now codes.now index.old)).index }
{
    let table = murm_c::counts_table(q, g, e, b, count1, count2, count3, count4, count5);
    let filling = murm::fill_index(table, fingerprints, parents, codes, index);
    filled(filling)
}

// A node and its gate count as one number.
fn node_number(node: usize, gates: usize) -> u64
    ensures { result ≡ node_number node gates }
{
    if node > 1000000 || gates > 64 {
        return 4294967294;
    }
    node as u64 * 128 + gates as u64
}

// What was found: a node, 4294967295 for none, or why it was refused.
fn found_number(told: Result<Option<(usize, usize)>, Refusal>) -> u64
    ensures { result ≡ found_number (told_found_node told) }
{
    match told {
        Ok(Some((node, gates))) => node_number(node, gates),
        Ok(None) => 4294967295,
        Err(why) => murm_c::refusal_number(why),
    }
}

// The entry for finds (SPECIFICATION 7.10), with the table's record as numbers.
#[unsafe(no_mangle)]
pub extern "C" fn bench_find(
    by: u32,
    q: u32,
    g: u32,
    e: u32,
    b: u32,
    count1: usize,
    count2: usize,
    count3: usize,
    count4: usize,
    count5: usize,
    fingerprints: &[u64],
    parents: &[u32],
    codes: &[u32],
    index: &[u32],
    width: u32,
    exponent: u16,
    matrix: &[Coefficient],
) -> u64
    ensures { result ≡ found_number (found_in (counts_table (limits_of q g e b) count1 count2 count3 count4 count5)
        (arrays_by (by_number by) fingerprints.now parents.now codes.now index.now)
        (query width exponent matrix.now)) }
{
    let table = murm_c::counts_table(q, g, e, b, count1, count2, count3, count4, count5);
    let told = murm::find_by(
        lookup_by(by),
        table,
        fingerprints,
        parents,
        codes,
        index,
        width,
        exponent,
        matrix,
    );
    found_number(told)
}

// The entry for answers (SPECIFICATION, chapter 7), with the table's record as numbers.
#[unsafe(no_mangle)]
pub extern "C" fn bench_synthesize(
    by: u32,
    q: u32,
    g: u32,
    e: u32,
    b: u32,
    count1: usize,
    count2: usize,
    count3: usize,
    count4: usize,
    count5: usize,
    fingerprints: &[u64],
    parents: &[u32],
    codes: &[u32],
    index: &[u32],
    width: u32,
    exponent: u16,
    matrix: &[Coefficient],
    out: &mut [u32],
) -> u64
    ensures number { result ≡ reply_number (synthesized (counts_table (limits_of q g e b) count1 count2 count3 count4 count5)
        (arrays_by (by_number by) fingerprints.now parents.now codes.now index.now)
        (query width exponent matrix.now) out.old).reply }
    ensures places { out.new ≡ (synthesized (counts_table (limits_of q g e b) count1 count2 count3 count4 count5)
        (arrays_by (by_number by) fingerprints.now parents.now codes.now index.now)
        (query width exponent matrix.now) out.old).list }
{
    let table = murm_c::counts_table(q, g, e, b, count1, count2, count3, count4, count5);
    let told = murm::synthesize_by(
        lookup_by(by),
        table,
        fingerprints,
        parents,
        codes,
        index,
        width,
        exponent,
        matrix,
        out,
    );
    murm_c::reply_number(told)
}

// What a write came to: the gate count, or why it was refused.
fn written_number(told: Result<usize, Refusal>) -> u64
    ensures { result ≡ reply_number (told_written told) }
{
    match told {
        Ok(m) => m as u64,
        Err(why) => murm_c::refusal_number(why),
    }
}

// The entry for writes (SPECIFICATION 7.11), with the table's record as numbers.
#[unsafe(no_mangle)]
pub extern "C" fn bench_write(
    q: u32,
    g: u32,
    e: u32,
    b: u32,
    count1: usize,
    count2: usize,
    count3: usize,
    count4: usize,
    count5: usize,
    fingerprints: &[u64],
    parents: &[u32],
    codes: &[u32],
    width: u32,
    node: usize,
    out: &mut [u32],
) -> u64
    ensures number { result ≡ reply_number (written_in (counts_table (limits_of q g e b) count1 count2 count3 count4 count5)
        (arrays fingerprints.now parents.now codes.now) width node out.old).reply }
    ensures places { out.new ≡ (written_in (counts_table (limits_of q g e b) count1 count2 count3 count4 count5)
        (arrays fingerprints.now parents.now codes.now) width node out.old).list }
{
    let table = murm_c::counts_table(q, g, e, b, count1, count2, count3, count4, count5);
    let told = murm::write(table, fingerprints, parents, codes, width, node, out);
    written_number(told)
}
