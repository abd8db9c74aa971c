// What H and Ch do to two runs of entries: the tests whether sums, differences and products by sqrt(2) fit, and the
// sums, differences and products themselves. By entries and places alone, below the rows and their bits, so that an
// edit of the arithmetic is refused in seconds.
#![tactic(auto)]

ghost use Rattle.std.specs.Prelude.{◌≡◌, true, false, ◌+◌, ◌≤◌, length};
ghost use Rattle.places.specs.Places.{places};
ghost use Rattle.h_entries.specs.Sums.{Summed, SizesFit, SumsFit, Tells};

use cyclotomic::Coefficient;

// Whether the sizes of the places p.. and q.., added one by one, are within the limit: then so are sums and
// differences, and only then.
pub fn sizes_fit(m: &[Coefficient; 4096], p: usize, q: usize, len: usize) -> bool
    requires { (p + len ≤ places) × (q + len ≤ places) }
    ensures { Tells (SizesFit m.now p q len) result }
{
    let mut over = false;
    for i in 0..len {
        let x = m[p + i];
        let y = m[q + i];
        over = over | cyclotomic::sizes_pass(x, y);
    }
    !over
}

// Whether sqrt(2) times each of c entries from e on and of c entries from f on is within the limit.
pub fn roots_fit(m: &[Coefficient; 4096], e: usize, f: usize, c: usize) -> bool
    requires c_bound { (e + c ≤ f) × (f + c ≤ 1024) }
    ensures { Tells (SumsFit false m.now e f c) result }
{
    for i in 0..c {
        let x = places::get(m, e + i);
        if !x.sqrt_2_fits() {
            return false;
        }
        let y = places::get(m, f + i);
        if !y.sqrt_2_fits() {
            return false;
        }
    }
    true
}

// c entries from e on and c entries from f on become their sums and their differences.
pub fn sum_row(m: &mut [Coefficient; 4096], e: usize, f: usize, c: usize)
    requires c_bound { (e + c ≤ f) × (f + c ≤ 1024) }
    requires sums_fit { SumsFit true m.old e f c }
    ensures { Summed true m.old m.new e f c }
{
    for i in 0..c {
        let x = places::get(m, e + i);
        let y = places::get(m, f + i);
        places::put_at(m, e + i, x + y);
        places::put_at(m, f + i, x - y);
    }
}

// c entries from e on and c entries from f on are multiplied by sqrt(2).
pub fn root_row(m: &mut [Coefficient; 4096], e: usize, f: usize, c: usize)
    requires c_bound { (e + c ≤ f) × (f + c ≤ 1024) }
    requires sums_fit { SumsFit false m.old e f c }
    ensures { Summed false m.old m.new e f c }
{
    for i in 0..c {
        let x = places::get(m, e + i);
        let y = places::get(m, f + i);
        places::put_at(m, e + i, x.times_sqrt_2());
        places::put_at(m, f + i, y.times_sqrt_2());
    }
}
