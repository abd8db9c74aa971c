// Row operations in place, on 4,096 signed places that hold a matrix of width up to 5: turns by powers of omega and
// exchanges. matrix.rs of the original, `apply_phase_left` and `apply_controlled_x_left`. Rows are tested by and, a
// row's partner is found by or; entries are turned by the ring's own function, and an exchange moves places.
#![tactic(auto)]

ghost use Rattle.std.specs.Prelude.{◌≡◌, ◌+◌, ◌*◌, ◌^◌, ◌<◌, ◌≤◌, length};
ghost use Rattle.std.specs.Int.Bits.{bit_and};
ghost use Rattle.exact.proofs.Words.{AllSmall};
ghost use Rattle.exact.specs.Places.{read};
ghost use Rattle.places.specs.Places.{places, Same, Kept};
ghost use Rattle.rows.specs.Rows.{phase_rows, low_row, exchange_rows};
ghost use Rattle.rows.specs.Work.{Worked, Exchanged, Turned, SmallFrom};

use cyclotomic::Coefficient;

// The places p.. and q.., len of each, are exchanged.
fn exchange_places(m: &mut [Coefficient; 4096], p: usize, q: usize, len: usize)
    requires len_bound { (p + len ≤ q) × (q + len ≤ places) }
    ensures { Exchanged m.old m.new p q len }
{
    for i in 0..len {
        let x = m[p + i];
        let y = m[q + i];
        m[p + i] = y;
        m[q + i] = x;
    }
}

// The pair of rows that differ in bit t is exchanged where r is its lower row and has all bits of control.
fn exchange_row(m: &mut [Coefficient; 4096], n: usize, r: usize, control: usize, t: usize)
    requires n_bound { (n ≤ 5) × (t < n) }
    requires t_value { bit_and control (2 ^ t) ≡ 0 }
    requires r_bound { r < 2 ^ n }
    ensures { Worked n (low_row (2 ^ t)) r (exchange_rows control (2 ^ t) (read n m.old)) m.old m.new }
{
    if r & control != control {
        return;
    }
    let bit = places::mask(t);
    if r & bit == bit {
        return;
    }
    let d = places::dim(n);
    exchange_places(m, 4 * (r * d), 4 * ((r | bit) * d), 4 * d);
}

// The rows that differ in the bit are exchanged where they have all bits of control.
pub fn apply_controlled_x_left(m: &mut [Coefficient; 4096], n: usize, control: usize, t: usize)
    requires n_bound { (n ≤ 5) × (t < n) }
    requires t_value { bit_and control (2 ^ t) ≡ 0 }
    ensures exchanged { Same n (read n m.new) (exchange_rows control (2 ^ t) (read n m.old)) }
    ensures kept { Kept n m.old m.new }
{
    let d = places::dim(n);
    for r in 0..d {
        exchange_row(m, n, r, control, t);
    }
}

// c entries from e on are turned by omega^power. Compiled in place, as `phase_rows` is, so that the power is a constant in
// each of the loops of `apply_phase_left`.
#[inline(always)]
fn turn_row(m: &mut [Coefficient; 4096], e: usize, c: usize, power: u8)
    requires c_bound { e + c ≤ 1024 }
    requires small_from { SmallFrom m.old e c }
    ensures { Turned power m.old m.new e c }
{
    for i in 0..c {
        let z = places::get(m, e + i);
        places::put_at(m, e + i, z.times_omega(power));
    }
}

// The rows that have all bits of the mask are turned by omega^power.
#[inline(always)]
fn phase_rows(m: &mut [Coefficient; 4096], n: usize, mask: usize, power: u8)
    requires n_bound { n ≤ 5 }
    requires all_small { AllSmall n (read n m.old) }
    ensures turned { Same n (read n m.new) (phase_rows mask power (read n m.old)) }
    ensures kept { Kept n m.old m.new }
{
    let d = places::dim(n);
    for r in 0..d {
        if r & mask == mask {
            turn_row(m, r * d, d, power);
        }
    }
}

// The same, with a loop of its own for each power that a gate has.
pub fn apply_phase_left(m: &mut [Coefficient; 4096], n: usize, mask: usize, power: u8)
    requires n_bound { n ≤ 5 }
    requires all_small { AllSmall n (read n m.old) }
    ensures turned { Same n (read n m.new) (phase_rows mask power (read n m.old)) }
    ensures kept { Kept n m.old m.new }
{
    match power {
        1 => phase_rows(m, n, mask, 1),
        2 => phase_rows(m, n, mask, 2),
        4 => phase_rows(m, n, mask, 4),
        6 => phase_rows(m, n, mask, 6),
        7 => phase_rows(m, n, mask, 7),
        _ => phase_rows(m, n, mask, power),
    }
}
