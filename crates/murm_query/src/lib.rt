// The checks of a matrix that is asked, rows 6, 9, 10, 11 (SPECIFICATION 9.1), and the fingerprint of one that passes:
// matrix.rs of the original, `unitary_fingerprint`. They stand below the find, since whatever asks a table for a matrix
// tries them, and apart from the entries, so that an edit of a check is proved in seconds.
#![tactic(auto)]

ghost use Rattle.std.specs.Prelude.{◌≡◌, ◌&&◌, ◌*◌, ◌^◌, ◌≤◌, negsuc, ltb, length};
ghost use Rattle.coefficients.specs.Coefficients.{limit, eq_z};
ghost use Rattle.exact.specs.Matrix.{all_divisible};
ghost use Rattle.exact.specs.Places.{read};
ghost use Rattle.refusal.specs.Told.{told_check};
ghost use Rattle.murm_query.specs.Fingerprints.{fingerprinted};
ghost use Rattle.murm_query.specs.Entries.{told_query, told_fingerprinted};
ghost use Rattle.murm_query.specs.Work.{InRange, Checked};

use cyclotomic::{Coefficient, LIMIT, Wide};
use refusal::Refusal;

// A matrix that is asked: its width, its exponent, and its coefficients in the order of the places (SPECIFICATION 7.1).
#[derive(Clone, Copy)]
pub struct Query<'a> {
    pub width: u32,
    pub exponent: u16,
    pub matrix: &'a [Coefficient],
}

// Whether a coefficient is -32768.
fn past_limit(x: Coefficient) -> bool
    ensures { result ≡ eq_z x (negsuc limit) }
{
    (x as Wide) < -LIMIT
}

// Row 10: whether no coefficient is -32768, by the least of them and 0. There is no early return: this loop is many
// times faster without one.
fn in_range(entries: &[Coefficient]) -> bool
    ensures { InRange entries.now result }
{
    let mut least: Coefficient = 0;
    for &x in entries {
        if x < least {
            least = x;
        }
    }
    !past_limit(least)
}

// Row 11: whether k is above 0 and all entries are divisible, so that the matrix is not in lowest denominator.
fn is_divisible(entries: &[Coefficient], n: usize, k: u16) -> bool
    requires n_bound { n ≤ 5 }
    requires n_in_bounds { 4 * (2 ^ n * 2 ^ n) ≤ length entries.now }
    ensures { result ≡ (ltb 0 k && all_divisible n (read n entries.now)) }
{
    k > 0 && lowering::all_divisible(entries, n)
}

// Whether a matrix may be asked; else which of the rows 6, 9, 10, 11 is the first to refuse it (SPECIFICATION 9.1).
pub fn check_query(query: Query<'_>) -> Result<(), Refusal>
    ensures { Checked (told_query query.entry) (told_check result) }
{
    if query.width > 5 {
        return Err(Refusal::WidthTooLarge);
    }
    let entries = query.matrix;
    let n = query.width as usize;
    let count = 4 * places::area(n);
    if entries.len() != count {
        return Err(Refusal::LengthNotExact);
    }
    if !in_range(entries) {
        return Err(Refusal::OutOfRange);
    }
    if is_divisible(entries, n, query.exponent) {
        return Err(Refusal::NotLowest);
    }
    Ok(())
}

// The fingerprint of a matrix that is given by its coefficients, with the checks of a query (SPECIFICATION 5.5). The
// entries take lent slices and numbers, one by one.
pub fn library_fingerprint(
    width: u32,
    exponent: u16,
    entries: &[Coefficient],
) -> Result<u64, Refusal>
    ensures { told_fingerprinted result ≡ fingerprinted width exponent entries.now }
{
    check_query(Query {
        width,
        exponent,
        matrix: entries,
    })?;
    Ok(prints::unitary_fingerprint(entries, width as usize, exponent))
}
