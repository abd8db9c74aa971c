// One gate applied in place: a turn, an exchange, H or Ch, and the gates that are made of several of these. Below
// `matrix`, which chooses by kind, so that an edit of a gate does not prove the choice. Of the row operations only H
// and Ch can fail to fit. A gate's answer is the exponent that it left, or None where its step does not fit, by a
// coefficient or by the exponent (SPECIFICATION 3.4).
#![tactic(auto)]

ghost use Rattle.std.specs.Prelude.{◌≡◌, false, [], ◌∷◌, ◌^◌, ◌<◌, ◌≤◌};
ghost use Rattle.std.specs.Int.Bits.{bit_and, bit_or};
ghost use Rattle.exact.specs.Rows.{phase, exchange, had, then, turned_exchange, exchanges3};
ghost use Rattle.places.specs.Held.{Ready};
ghost use Rattle.steps.specs.Step.{Stepped, TurnsRows, Controlled};

use cyclotomic::Coefficient;

// The largest exponent, `most_k` of the definitions: a step whose raw result has a larger one does not fit
// (SPECIFICATION 3.4).
const MOST_K: u16 = 65535;

// A turn by omega^power of the rows that have all bits of the mask.
pub fn phase_step(
    m: &mut [Coefficient; 4096],
    n: usize,
    mask: usize,
    power: u8,
    k: u16,
) -> Option<u16>
    requires n_bound { n ≤ 5 }
    requires ready { Ready n k m.old }
    ensures { TurnsRows n k mask power m.old m.new result }
{
    rows::apply_phase_left(m, n, mask, power);
    Some(k)
}

// An exchange of the rows that differ in bit t, where they have all bits of control.
pub fn exchange_step(
    m: &mut [Coefficient; 4096],
    n: usize,
    control: usize,
    t: usize,
    k: u16,
) -> Option<u16>
    requires n_bound { (n ≤ 5) × (t < n) }
    requires t_value { bit_and control (2 ^ t) ≡ 0 }
    requires ready { Ready n k m.old }
    ensures { Controlled n k control (λ ks. exchange ks t) m.old m.new result }
{
    rows::apply_controlled_x_left(m, n, control, t);
    Some(k)
}

// H on bit t where all bits of control are 1, sqrt(2) times the other rows: Ch, or H itself, with no control.
fn had_step<const CONTROLLED: bool>(
    m: &mut [Coefficient; 4096],
    n: usize,
    control: usize,
    t: usize,
    k: u16,
) -> Option<u16>
    requires n_bound { (n ≤ 5) × (t < n) }
    requires t_value { bit_and control (2 ^ t) ≡ 0 }
    requires no_control { CONTROLLED ≡ false → control ≡ 0 }
    requires ready { Ready n k m.old }
    ensures { Controlled n k control (λ ks. had ks t) m.old m.new result }
{
    if k == MOST_K {
        return None;
    }
    if !h_rows::h_left::<CONTROLLED>(m, n, control, t) {
        return None;
    }
    Some(lowering::normalize_denominator(m, n, k + 1))
}

// H on bit t.
pub fn h_step(m: &mut [Coefficient; 4096], n: usize, t: usize, k: u16) -> Option<u16>
    requires n_bound { (n ≤ 5) × (t < n) }
    requires ready { Ready n k m.old }
    ensures { Controlled n k 0 (λ ks. had ks t) m.old m.new result }
{
    had_step::<false>(m, n, 0, t, k)
}

// H on bit t, where all bits of control are 1; the other rows are multiplied by sqrt(2).
pub fn ch_step(
    m: &mut [Coefficient; 4096],
    n: usize,
    control: usize,
    t: usize,
    k: u16,
) -> Option<u16>
    requires n_bound { (n ≤ 5) × (t < n) }
    requires t_value { bit_and control (2 ^ t) ≡ 0 }
    requires ready { Ready n k m.old }
    ensures { Controlled n k control (λ ks. had ks t) m.old m.new result }
{
    had_step::<true>(m, n, control, t, k)
}

// Y on bit t, or Cy: Sdg on the target, the exchange where all bits of control are 1, S on the target.
pub fn y_step(
    m: &mut [Coefficient; 4096],
    n: usize,
    control: usize,
    t: usize,
    k: u16,
) -> Option<u16>
    requires n_bound { (n ≤ 5) × (t < n) }
    requires t_value { bit_and control (2 ^ t) ≡ 0 }
    requires ready { Ready n k m.old }
    ensures { Controlled n k control (λ ks. turned_exchange ks t) m.old m.new result }
{
    let bit = places::mask(t);
    rows::apply_phase_left(m, n, bit, 6);
    rows::apply_controlled_x_left(m, n, control, t);
    rows::apply_phase_left(m, n, bit, 2);
    Some(k)
}

// Swap of the bits s and t, or Cswap: three exchanges, the middle one where all bits of control are 1.
pub fn swap_step(
    m: &mut [Coefficient; 4096],
    n: usize,
    control: usize,
    s: usize,
    t: usize,
    k: u16,
) -> Option<u16>
    requires n_bound { n ≤ 5 }
    requires s_lt_n { (s < n) × (t < n) × (bit_and (2 ^ t) (2 ^ s) ≡ 0) × (bit_and (bit_or (2 ^ s) control) (2 ^ t) ≡ 0) }
    requires ready { Ready n k m.old }
    ensures { Controlled n k control (λ ks. exchanges3 ks s t) m.old m.new result }
{
    let bit_s = places::mask(s);
    let bit_t = places::mask(t);
    rows::apply_controlled_x_left(m, n, bit_t, s);
    rows::apply_controlled_x_left(m, n, bit_s | control, t);
    rows::apply_controlled_x_left(m, n, bit_t, s);
    Some(k)
}

// Sx on bit t: H, S, H. Where the second H does not fit, the first was made. By `ch_step` without a control: with one
// caller alone `h_step` is compiled in place, and H takes no longer than without Sx and Ch.
pub fn sx_step(m: &mut [Coefficient; 4096], n: usize, t: usize, k: u16) -> Option<u16>
    requires n_bound { (n ≤ 5) × (t < n) }
    requires ready { Ready n k m.old }
    ensures { Stepped n k (then (had [] t) (then (phase (t ∷ []) 2) (had [] t))) m.old m.new result }
{
    let target = places::mask(t);
    let j = ch_step(m, n, 0, t, k)?;
    rows::apply_phase_left(m, n, target, 2);
    ch_step(m, n, 0, t, j)
}
