// Lowering of a matrix in place (SPECIFICATION 1.9), `normalize_denominator` in matrix.rs of the original: the test
// whether all entries are divisible by sqrt(2), the division, and the loop of both. The test has no effect on the
// places, so that a query is tested by it, too.
#![tactic(auto)]

ghost use Rattle.std.specs.Prelude.{◌≡◌, ◌*◌, ◌^◌, ◌≤◌, length};
ghost use Rattle.exact.specs.Matrix.{all_divisible, lower};
ghost use Rattle.exact.specs.Places.{read, held};
ghost use Rattle.exact.proofs.Words.{AllSmall};
ghost use Rattle.places.specs.Places.{places, Same, Kept};
ghost use Rattle.places.specs.Held.{Holds};
ghost use Rattle.lowering.specs.Lowered.{divided_all};

use cyclotomic::Coefficient;

// Whether every entry is divisible by sqrt(2).
pub fn all_divisible(m: &[Coefficient], n: usize) -> bool
    requires n_bound { n ≤ 5 }
    requires n_in_bounds { 4 * (2 ^ n * 2 ^ n) ≤ length m.now }
    ensures { result ≡ all_divisible n (read n m.now) }
{
    let size = places::area(n);
    for e in 0..size {
        if !places::get(m, e).divisible_by_sqrt_2() {
            return false;
        }
    }
    true
}

// All entries are divided by sqrt(2).
pub fn divide_all(m: &mut [Coefficient; 4096], n: usize)
    requires n_bound { n ≤ 5 }
    requires all_small { AllSmall n (read n m.old) }
    ensures divided { Same n (read n m.new) (divided_all (read n m.old)) }
    ensures kept { Kept n m.old m.new }
{
    let size = places::area(n);
    for e in 0..size {
        let z = places::get(m, e);
        places::put_at(m, e, z.divide_by_sqrt_2());
    }
}

// Lowering (SPECIFICATION 1.9): while k > 0 and every entry is divisible by sqrt(2), all are divided and k falls by
// one. Returns k.
pub fn normalize_denominator(m: &mut [Coefficient; 4096], n: usize, k: u16) -> u16
    requires n_bound { n ≤ 5 }
    requires all_small { AllSmall n (read n m.old) }
    ensures lowered { Holds n result m.new (lower n (held n k m.old)) }
    ensures kept { Kept n m.old m.new }
{
    let mut j = k;
    while j > 0 && all_divisible(m, n) {
        divide_all(m, n);
        j -= 1;
    }
    j
}
