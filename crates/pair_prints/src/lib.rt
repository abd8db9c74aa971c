// The fingerprints of two matrices at once. Each is the one that `unitary_fingerprint` gives of its matrix alone;
// together they take little longer than one (docs/SPEED.md), and a build asks for two candidates' at a time.
#![tactic(auto)]

ghost use Rattle.std.specs.Prelude.{◌≡◌, ◌*◌, ◌^◌, ◌≤◌, length};
ghost use Rattle.exact.specs.Places.{read, held};
ghost use Rattle.exact.proofs.Words.{AllSmall};
ghost use Rattle.exact.specs.Fingerprint.{fingerprint};

use cyclotomic::Coefficient;

// The fingerprints of two matrices.
#[derive(Clone, Copy)]
pub struct Pair {
    pub left: u64,
    pub right: u64,
}

// The fingerprints of two matrices of width n, over sqrt(2)^j and sqrt(2)^k, one entry of each at a time. A step of a
// stream waits for the step before it, and not for the other matrix's: two take little longer than one. Each matrix's
// turns are worked once, on places: where two are mixed this is faster than to turn each entry, where one is mixed it
// is slower (docs/SPEED.md has the times).
pub fn pair_fingerprints(
    left: &[Coefficient],
    right: &[Coefficient],
    n: usize,
    j: u16,
    k: u16,
) -> Pair
    requires n_bound { n ≤ 5 }
    requires n_in_bounds { (4 * (2 ^ n * 2 ^ n) ≤ length left.now) × (4 * (2 ^ n * 2 ^ n) ≤ length right.now) }
    requires all_small { AllSmall n (read n left.now) × AllSmall n (read n right.now) }
    ensures left { result.left ≡ fingerprint n (held n j left.now) }
    ensures right { result.right ≡ fingerprint n (held n k right.now) }
{
    let p = phases::least_power(phases::pivot(left, n));
    let q = phases::least_power(phases::pivot(right, n));
    let size = places::area(n);
    let u = place_turns::turn_places(p);
    let v = place_turns::turn_places(q);
    let mut s = prints::head(n, j);
    let mut t = prints::head(n, k);
    for e in 0..size {
        let x = places::get(left, e).eight();
        let y = places::get(right, e).eight();
        let both = pair_words::mix_eights(s, t, &x, &y, u, v);
        s = both.left;
        t = both.right;
    }
    Pair {
        left: s.fold(),
        right: t.fold(),
    }
}
