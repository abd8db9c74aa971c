// H and Ch in place, `apply_h_left` and `apply_controlled_h_left` in matrix.rs of the original, both by `h_left`. H is
// the case with no control. Which of the two a function works is its parameter CONTROLLED, a constant: compiled for H
// it has no test of the control, which took H more time (docs/SPEED.md). A first pass only tests whether every result
// fits, so that a refusal leaves the places as they were.
#![tactic(auto)]

ghost use Rattle.std.specs.Prelude.{◌≡◌, false, ◌^◌, ◌<◌, ◌≤◌};
ghost use Rattle.std.specs.Int.Bits.{bit_and};
ghost use Rattle.exact.proofs.Words.{AllSmall};
ghost use Rattle.exact.specs.Places.{read};
ghost use Rattle.places.specs.Places.{Same, Kept};
ghost use Rattle.rows.specs.Rows.{h_rows};
ghost use Rattle.h_entries.specs.Sums.{Tells};
ghost use Rattle.h_rows.specs.Work.{PairFits, PairSummed, HDone};

use cyclotomic::Coefficient;

// Whether what comes of row r, which lacks the bit, and of the row that has it besides is within the limit. Of a row
// that has the bit nothing is asked.
fn pair_fits<const CONTROLLED: bool>(
    m: &[Coefficient; 4096],
    n: usize,
    r: usize,
    control: usize,
    bit: usize,
) -> bool
    requires n_bound { (n ≤ 5) × (r < 2 ^ n) × (bit < 2 ^ n) }
    requires no_control { CONTROLLED ≡ false → control ≡ 0 }
    ensures { Tells (PairFits n control bit m.now r) result }
{
    if r & bit == bit {
        return true;
    }
    let d = places::dim(n);
    if CONTROLLED && r & control != control {
        return h_entries::roots_fit(m, r * d, (r | bit) * d, d);
    }
    h_entries::sizes_fit(m, 4 * (r * d), 4 * ((r | bit) * d), 4 * d)
}

// Whether all that comes of the rows is within the limit.
fn h_fits<const CONTROLLED: bool>(
    m: &[Coefficient; 4096],
    n: usize,
    control: usize,
    t: usize,
) -> bool
    requires n_bound { (n ≤ 5) × (t < n) }
    requires t_value { bit_and control (2 ^ t) ≡ 0 }
    requires no_control { CONTROLLED ≡ false → control ≡ 0 }
    ensures { Tells (AllSmall n (h_rows control (2 ^ t) (read n m.now))) result }
{
    let d = places::dim(n);
    let bit = places::mask(t);
    for r in 0..d {
        if !pair_fits::<CONTROLLED>(m, n, r, control, bit) {
            return false;
        }
    }
    true
}

// Row r, which lacks the bit, and the row that has it besides become their sum and their difference, or both are
// multiplied by sqrt(2) where they lack a bit of control. A row that has the bit is left.
fn row_pair<const CONTROLLED: bool>(
    m: &mut [Coefficient; 4096],
    n: usize,
    r: usize,
    control: usize,
    bit: usize,
)
    requires n_bound { (n ≤ 5) × (r < 2 ^ n) × (bit < 2 ^ n) }
    requires no_control { CONTROLLED ≡ false → control ≡ 0 }
    requires pair_fits { PairFits n control bit m.old r }
    ensures { PairSummed n control bit m.old m.new r }
{
    if r & bit == bit {
        return;
    }
    let d = places::dim(n);
    if CONTROLLED && r & control != control {
        h_entries::root_row(m, r * d, (r | bit) * d, d);
        return;
    }
    h_entries::sum_row(m, r * d, (r | bit) * d, d);
}

// Rows that differ in bit t become their sum and their difference where they have all bits of control; the others are
// multiplied by sqrt(2).
fn h_rows<const CONTROLLED: bool>(m: &mut [Coefficient; 4096], n: usize, control: usize, t: usize)
    requires n_bound { (n ≤ 5) × (t < n) }
    requires t_value { bit_and control (2 ^ t) ≡ 0 }
    requires no_control { CONTROLLED ≡ false → control ≡ 0 }
    requires all_small { AllSmall n (h_rows control (2 ^ t) (read n m.old)) }
    ensures summed { Same n (read n m.new) (h_rows control (2 ^ t) (read n m.old)) }
    ensures kept { Kept n m.old m.new }
{
    let d = places::dim(n);
    let bit = places::mask(t);
    for r in 0..d {
        row_pair::<CONTROLLED>(m, n, r, control, bit);
    }
}

// H on bit t where all bits of control are 1, sqrt(2) times the other rows (SPECIFICATION 3.2), the exponent left to
// the caller: Ch, or H itself, with no control. A refusal leaves the places as they were.
pub fn h_left<const CONTROLLED: bool>(
    m: &mut [Coefficient; 4096],
    n: usize,
    control: usize,
    t: usize,
) -> bool
    requires n_bound { (n ≤ 5) × (t < n) }
    requires t_value { bit_and control (2 ^ t) ≡ 0 }
    requires no_control { CONTROLLED ≡ false → control ≡ 0 }
    ensures { HDone n (h_rows control (2 ^ t) (read n m.old)) m.old m.new result }
{
    if !h_fits::<CONTROLLED>(m, n, control, t) {
        return false;
    }
    h_rows::<CONTROLLED>(m, n, control, t);
    true
}

// H alone, on bit t: its caller gives no control and owes nothing of one.
pub fn apply_h_left(m: &mut [Coefficient; 4096], n: usize, t: usize) -> bool
    requires n_bound { (n ≤ 5) × (t < n) }
    ensures { HDone n (h_rows 0 (2 ^ t) (read n m.old)) m.old m.new result }
{
    h_left::<false>(m, n, 0, t)
}

// Ch alone: its caller owes nothing of CONTROLLED.
pub fn apply_controlled_h_left(
    m: &mut [Coefficient; 4096],
    n: usize,
    control: usize,
    t: usize,
) -> bool
    requires n_bound { (n ≤ 5) × (t < n) }
    requires t_value { bit_and control (2 ^ t) ≡ 0 }
    ensures { HDone n (h_rows control (2 ^ t) (read n m.old)) m.old m.new result }
{
    h_left::<true>(m, n, control, t)
}
