// A list of gates becomes a matrix (SPECIFICATION, chapter 4): murm.rs of the original, `library_circuit_matrix`. It
// asks no table, so it stands apart from the entries that do: a change of a table's code leaves its proof.
#![tactic(auto)]

ghost use Rattle.std.specs.Prelude.{◌≡◌, ◌<◌, ◌≤◌, length, MatchOption};
ghost use Rattle.tables.specs.Lists.{first_invalid, outcome, listed};
ghost use Rattle.murm_lists.specs.Entries.{told_listed};

use circuit::LibraryGate;
use cyclotomic::Coefficient;
use refusal::Refusal;

// The position of the first code that is not valid at the width, where one is not.
fn first_invalid(codes: &[u32], width: u32) -> Option<usize>
    ensures { MatchOption result (length codes.now ≤ first_invalid width codes.now)
        (λ i. (i ≡ first_invalid width codes.now) × (i < length codes.now)) }
{
    codes
        .iter()
        .position(|code| !LibraryGate(*code).is_valid(width))
}

// A list becomes a matrix (SPECIFICATION, chapter 4): rows 6, 9, 7, 8. The lent places get the coefficients of the
// list's product; a refusal leaves them as they were.
pub fn library_circuit_matrix(
    width: u32,
    codes: &[u32],
    out: &mut [Coefficient],
) -> Result<u16, Refusal>
    ensures { outcome (told_listed result) out.new ≡ listed width codes.now out.old }
{
    if width > 5 {
        return Err(Refusal::WidthTooLarge);
    }
    let n = width as usize;
    let size = 4 * places::area(n);
    if out.len() != size {
        return Err(Refusal::LengthNotExact);
    }
    if let Some(i) = first_invalid(codes, width) {
        return Err(Refusal::NotValid(i));
    }
    let mut data: [Coefficient; 4096] = [0; 4096];
    identity::put_identity(&mut data, n);
    let k = lists::apply_gates(&mut data, n, codes).map_err(Refusal::DoesNotFit)?;
    out.copy_from_slice(&data[0..size]);
    Ok(k)
}
