// Equality of two matrices up to phase, `equivalent_up_to_global_phase` in matrix.rs of the original. The entries of
// one matrix are turned as they are read, so that no matrix is copied. Only answers ask for it, so it stands beside the
// fingerprints and not below them.
#![tactic(auto)]

ghost use Rattle.std.specs.Prelude.{◌≡◌, ◌*◌, ◌^◌, ◌≤◌, length};
ghost use Rattle.exact.specs.Places.{read, held};
ghost use Rattle.exact.proofs.Words.{AllSmall};
ghost use Rattle.exact.specs.Phase.{up_to_phase};

use cyclotomic::Coefficient;

// Whether two matrices of width n are equal up to phase: their exponents are equal, and so are all entries once each is
// phased (SPECIFICATION 1.12). Turns by p and by q differ by p and 7 times q together, so the left entries alone are
// turned.
pub fn equivalent_up_to_global_phase(
    left: &[Coefficient],
    right: &[Coefficient],
    n: usize,
    j: u16,
    k: u16,
) -> bool
    requires n_bound { n ≤ 5 }
    requires n_in_bounds { (4 * (2 ^ n * 2 ^ n) ≤ length left.now) × (4 * (2 ^ n * 2 ^ n) ≤ length right.now) }
    requires all_small { AllSmall n (read n left.now) × AllSmall n (read n right.now) }
    ensures { result ≡ up_to_phase n (held n j left.now) (held n k right.now) }
{
    if j != k {
        return false;
    }
    let p = phases::least_power(phases::pivot(left, n));
    let q = phases::least_power(phases::pivot(right, n));
    let turns = (p + 7 * q) % 8;
    let size = places::area(n);
    for e in 0..size {
        if places::get(left, e).times_omega(turns) != places::get(right, e) {
            return false;
        }
    }
    true
}
