// The identity of width n in 4,096 signed places, `identity` in matrix.rs of the original: in places that are all 0, in
// places that a caller lends whatever they hold, or in places of its own. Every list starts from it, and where the
// places are lent only the matrix's are set.
#![tactic(auto)]

ghost use Rattle.std.specs.Prelude.{◌≡◌, ◌≤◌, pos, length, replicate};
ghost use Rattle.exact.specs.Matrix.{identity};
ghost use Rattle.places.specs.Places.{places, Kept, Blank};
ghost use Rattle.places.specs.Held.{Holds, AllZero};

use cyclotomic::{Coefficient, Cyclotomic};

// 1 at the diagonal's places of a matrix of width n whose coefficients are all 0.
fn put_ones(m: &mut [Coefficient; 4096], n: usize)
    requires n_bound { n ≤ 5 }
    requires all_zero { AllZero n m.old }
    ensures identity { Holds n 0 m.new identity }
    ensures kept { Kept n m.old m.new }
{
    let d = places::dim(n);
    for i in 0..d {
        places::put_at(m, i * (d + 1), Cyclotomic::one());
    }
}

// 0 at the places of a matrix of width n.
fn clear(m: &mut [Coefficient; 4096], n: usize)
    requires n_bound { n ≤ 5 }
    ensures zero { AllZero n m.new }
    ensures kept { Kept n m.old m.new }
{
    let size = 4 * places::area(n);
    m[..size].fill(0);
}

// The identity of width n, put into places that are all 0.
pub fn put_identity(m: &mut [Coefficient; 4096], n: usize)
    requires m_value { m.old ≡ replicate places (pos 0) }
    requires n_bound { n ≤ 5 }
    ensures identity { Holds n 0 m.new identity }
    ensures blank { Blank n m.new }
{
    put_ones(m, n);
}

// The same in the places of a matrix of width n, whatever they hold: in lent places the others need not be set.
pub fn set_identity(m: &mut [Coefficient; 4096], n: usize)
    requires n_bound { n ≤ 5 }
    ensures identity { Holds n 0 m.new identity }
    ensures kept { Kept n m.old m.new }
{
    clear(m, n);
    put_ones(m, n);
}

// The identity of width n in places of its own.
pub fn identity_data(n: usize) -> [Coefficient; 4096]
    requires { n ≤ 5 }
    ensures identity { Holds n 0 result identity }
    ensures blank { Blank n result }
{
    let mut data: [Coefficient; 4096] = [0; 4096];
    put_identity(&mut data, n);
    data
}
