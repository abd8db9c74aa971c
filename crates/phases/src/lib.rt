// The phase of a matrix (SPECIFICATION 1.11): its pivot, the first entry that is not zero, and the power of omega that
// makes the pivot least. matrix.rs of the original, `canonical_phase_power`. Below equality up to phase and the
// fingerprints, which both begin with it.
#![tactic(auto)]

ghost use Rattle.std.specs.Prelude.{◌≡◌, ◌*◌, ◌^◌, ◌≤◌, length};
ghost use Rattle.cyclotomic.specs.Zomega.{phase, Small};
ghost use Rattle.exact.specs.Places.{read, held};
ghost use Rattle.exact.proofs.Words.{AllSmall};
ghost use Rattle.exact.specs.Phase.{pivot};
ghost use Rattle.phases.specs.First.{FoundNonzero};

use cyclotomic::{Coefficient, Cyclotomic};

// The place of the first of the entries that is not zero, if one is not.
fn first_nonzero(m: &[Coefficient], size: usize) -> Option<usize>
    requires { 4 * size ≤ length m.now }
    ensures { FoundNonzero m.now size result }
{
    for e in 0..size {
        if !places::get(m, e).is_zero() {
            return Some(e);
        }
    }
    None
}

// The power 0 to 7 whose turn of an entry is least, in the order of SPECIFICATION 1.11. Each turn is made of the one
// before.
pub fn least_power(z: Cyclotomic) -> u8
    requires { Small z }
    ensures { result ≡ phase z }
{
    let mut least: u8 = 0;
    let mut best = z;
    let mut turned = z;
    for power in 1..8 {
        turned = turned.turned();
        if turned.less_than(best) {
            least = power;
            best = turned;
        }
    }
    least
}

// The first entry that is not zero; zero where all are. The phase of a matrix is the least power of this. The entry and
// not the matrix is handed on, since a slice that is handed on is copied, and its reader waits for the copy.
pub fn pivot(m: &[Coefficient], n: usize) -> Cyclotomic
    requires n_bound { n ≤ 5 }
    requires n_in_bounds { 4 * (2 ^ n * 2 ^ n) ≤ length m.now }
    requires all_small { AllSmall n (read n m.now) }
    ensures entry { result ≡ pivot n (held n 0 m.now) }
    ensures small { Small result }
{
    let size = places::area(n);
    match first_nonzero(m, size) {
        Some(e) => places::get(m, e),
        None => Cyclotomic::zero(),
    }
}
