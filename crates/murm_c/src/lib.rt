// The entries for lists and for answers as functions on numbers and slices, which `murm_c_c` exports to C
// (SPECIFICATION, chapter 14). A slice passes as a pointer and then its length; include/murm.h declares both.
#![tactic(auto)]

ghost use Rattle.std.specs.Prelude.{◌≡◌, ◌≤◌};
ghost use Rattle.refusal.specs.Told.{number_of, position_of};
ghost use Rattle.tables.specs.Checks.{limits_of, arrays};
ghost use Rattle.tables.specs.Lists.{listed};
ghost use Rattle.tables.specs.Tables.{query, synthesized};
ghost use Rattle.murm_config.specs.Told.{told_width, told_murm};
ghost use Rattle.murm_lists.specs.Entries.{told_listed};
ghost use Rattle.murm_find.specs.Entries.{told_synthesized};
ghost use Rattle.murm_c.specs.Numbers.{capped, refusal_number, list_number, reply_number, counted, counts_table};

use circuit::GateSet;
use cyclotomic::Coefficient;
use murm_config::{Murm, MurmConfig};
use refusal::Refusal;
use width_record::WidthTable;

// 2^32: refusals are counted in these.
const STEP: u64 = 4294967296;

// A position, a larger one given as 4294967295.
fn cap(position: u64) -> u64
    ensures is { result ≡ capped position }
    ensures most { result ≤ 4294967295 }
{
    position.min(4294967295)
}

// Refusal × 2^32 + position.
pub fn refusal_number(why: Refusal) -> u64
    ensures { result ≡ refusal_number (number_of why) (position_of why) }
{
    let told = refusal::number_of(why);
    told.0 * STEP + cap(told.1)
}

// What a list became: the exponent, or why it was refused.
fn list_number(told: Result<u16, Refusal>) -> u64
    ensures { result ≡ list_number (told_listed told) }
{
    match told {
        Ok(k) => k as u64,
        Err(why) => refusal_number(why),
    }
}

// What a table answers: the gate count, 4294967295 for none, or why it was refused.
pub fn reply_number(told: Result<Option<usize>, Refusal>) -> u64
    ensures { result ≡ reply_number (told_synthesized told) }
{
    match told {
        Ok(Some(m)) => m as u64,
        Ok(None) => 4294967295,
        Err(why) => refusal_number(why),
    }
}

// A width's row by its count alone: no answer reads the rest.
fn counted_row(count: usize) -> WidthTable
    ensures { told_width result ≡ counted count }
{
    WidthTable {
        count,
        depth: 0,
        saturated: false,
    }
}

// The record of Q, G, E, B and five counts.
pub fn counts_table(
    q: u32,
    g: u32,
    e: u32,
    b: u32,
    count1: usize,
    count2: usize,
    count3: usize,
    count4: usize,
    count5: usize,
) -> Murm
    ensures { told_murm result ≡ counts_table (limits_of q g e b) count1 count2 count3 count4 count5 }
{
    let config = MurmConfig {
        max_qubits: q,
        max_gates: g,
        max_entries_per_qubit: e,
        basis: GateSet(b),
    };
    let width1 = counted_row(count1);
    let width2 = counted_row(count2);
    let width3 = counted_row(count3);
    let width4 = counted_row(count4);
    let width5 = counted_row(count5);
    Murm {
        config,
        width1,
        width2,
        width3,
        width4,
        width5,
    }
}

// A list becomes a matrix: `library_circuit_matrix` as a number.
pub fn murm_library_circuit_matrix(width: u32, codes: &[u32], out: &mut [Coefficient]) -> u64
    ensures number { result ≡ list_number (listed width codes.now out.old).answer }
    ensures places { out.new ≡ (listed width codes.now out.old).numbers }
{
    list_number(murm::library_circuit_matrix(width, codes, out))
}

// A matrix is answered: `synthesize` as a number, with the table's record as numbers.
pub fn murm_synthesize(
    q: u32,
    g: u32,
    e: u32,
    b: u32,
    count1: usize,
    count2: usize,
    count3: usize,
    count4: usize,
    count5: usize,
    fingerprints: &[u64],
    parents: &[u32],
    codes: &[u32],
    width: u32,
    exponent: u16,
    matrix: &[Coefficient],
    out: &mut [u32],
) -> u64
    ensures number { result ≡ reply_number (synthesized (counts_table (limits_of q g e b) count1 count2 count3 count4 count5)
        (arrays fingerprints.now parents.now codes.now)
        (query width exponent matrix.now) out.old).reply }
    ensures places { out.new ≡ (synthesized (counts_table (limits_of q g e b) count1 count2 count3 count4 count5)
        (arrays fingerprints.now parents.now codes.now)
        (query width exponent matrix.now) out.old).list }
{
    let table = counts_table(q, g, e, b, count1, count2, count3, count4, count5);
    let told = murm::synthesize(
        table,
        fingerprints,
        parents,
        codes,
        width,
        exponent,
        matrix,
        out,
    );
    reply_number(told)
}
