// How 4,096 signed places hold a matrix of width up to 5: four for each entry, row after row (SPECIFICATION 1.7).
// Reading and storing an entry, and the numbers of rows. All code over matrices goes by these, so that only this crate
// knows the layout of an entry.
#![tactic(auto)]

ghost use Rattle.std.specs.Prelude.{◌≡◌, ◌+◌, ◌*◌, ◌^◌, ◌<◌, ◌≤◌, length};
ghost use Rattle.exact.specs.Places.{entry};
ghost use Rattle.exact.specs.Rows.{bit_of};
ghost use Rattle.places.specs.Places.{put};

use cyclotomic::{Coefficient, Cyclotomic};

// How many rows a matrix of width n has.
pub fn dim(n: usize) -> usize
    requires { n ≤ 5 }
    ensures { result ≡ 2 ^ n }
{
    1 << n
}

// The mask of bit t of a row's number.
pub fn mask(t: usize) -> usize
    requires { t ≤ 5 }
    ensures { result ≡ 2 ^ t }
{
    1 << t
}

// The bit of a row's number that stands for qubit q: qubit 0 is the highest (SPECIFICATION 1.6).
pub fn row_bit(n: usize, q: u32) -> usize
    ensures { result ≡ bit_of n q }
{
    let i = q as usize;
    if i >= n {
        return 0;
    }
    n - 1 - i
}

// How many entries.
pub fn area(n: usize) -> usize
    requires { n ≤ 5 }
    ensures { result ≡ 2 ^ n * 2 ^ n }
{
    let d = dim(n);
    d * d
}

// The entry at a place, counted in entries.
pub fn get(m: &[Coefficient], e: usize) -> Cyclotomic
    requires { 4 * e + 3 < length m.now }
    ensures { result ≡ entry m.now e }
{
    let at = 4 * e;
    Cyclotomic {
        a: m[at],
        b: m[at + 1],
        c: m[at + 2],
        d: m[at + 3],
    }
}

// Stores an entry.
pub fn put_at(m: &mut [Coefficient; 4096], e: usize, z: Cyclotomic)
    requires { e < 1024 }
    ensures { m.new ≡ put m.old e z }
{
    let i = 4 * e;
    let a = z.a;
    let b = z.b;
    let c = z.c;
    let d = z.d;
    m[i] = a;
    m[i + 1] = b;
    m[i + 2] = c;
    m[i + 3] = d;
}
