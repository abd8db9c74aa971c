// The archive's C functions: those of `murm_c`, with the same contracts, under the names that include/murm.h declares.
#![tactic(auto)]

ghost use Rattle.std.specs.Prelude.{◌≡◌};
ghost use Rattle.tables.specs.Checks.{limits_of, arrays};
ghost use Rattle.tables.specs.Lists.{listed};
ghost use Rattle.tables.specs.Tables.{query, synthesized};
ghost use Rattle.murm_c.specs.Numbers.{list_number, reply_number, counts_table};

use cyclotomic::Coefficient;

// A list becomes a matrix: `library_circuit_matrix` as a number.
#[unsafe(no_mangle)]
pub extern "C" fn murm_library_circuit_matrix(
    width: u32,
    codes: &[u32],
    out: &mut [Coefficient],
) -> u64
    ensures number { result ≡ list_number (listed width codes.now out.old).answer }
    ensures places { out.new ≡ (listed width codes.now out.old).numbers }
{
    murm_c::murm_library_circuit_matrix(width, codes, out)
}

// A matrix is answered: `synthesize` as a number, with the table's record as numbers.
#[unsafe(no_mangle)]
pub extern "C" fn murm_synthesize(
    q: u32,
    g: u32,
    e: u32,
    b: u32,
    count1: usize,
    count2: usize,
    count3: usize,
    count4: usize,
    count5: usize,
    fingerprints: &[u64],
    parents: &[u32],
    codes: &[u32],
    width: u32,
    exponent: u16,
    matrix: &[Coefficient],
    out: &mut [u32],
) -> u64
    ensures number { result ≡ reply_number (synthesized (counts_table (limits_of q g e b) count1 count2 count3 count4 count5)
        (arrays fingerprints.now parents.now codes.now)
        (query width exponent matrix.now) out.old).reply }
    ensures places { out.new ≡ (synthesized (counts_table (limits_of q g e b) count1 count2 count3 count4 count5)
        (arrays fingerprints.now parents.now codes.now)
        (query width exponent matrix.now) out.old).list }
{
    murm_c::murm_synthesize(
        q,
        g,
        e,
        b,
        count1,
        count2,
        count3,
        count4,
        count5,
        fingerprints,
        parents,
        codes,
        width,
        exponent,
        matrix,
        out,
    )
}
