// The gate of a code applied to a matrix in place, `apply_gate_left` in matrix.rs of the original: the choice by kind,
// and the operands as bits of a row's number. The kinds that no table has stand in a function of their own, since a build
// applies none of them.
#![tactic(auto)]

ghost use Rattle.std.specs.Prelude.{◌≡◌, true, false, ◌≤◌};
ghost use Rattle.kinds.specs.Kinds.{of_tables};
ghost use Rattle.kinds.specs.Told.{told_kind};
ghost use Rattle.circuit.specs.Codes.{valid};
ghost use Rattle.exact.specs.Rows.{gate, gate_of};
ghost use Rattle.exact.proofs.Words.{Proper};
ghost use Rattle.places.specs.Held.{Ready};
ghost use Rattle.steps.specs.Step.{Stepped};

use circuit::LibraryGate;
use cyclotomic::Coefficient;
use kinds::GateKind;

// The same answer, taken apart and made anew. Where a function is called and not compiled in place, as H is, its answer
// lies in memory in two parts; handed on as it lies, it is read as one word, and so are then the answers of turns and
// exchanges, which makes each gate wait.
fn made_anew(answer: Option<u16>) -> Option<u16>
    ensures { result ≡ answer }
{
    match answer {
        Some(k) => Some(k),
        None => None,
    }
}

// The gate of one of the six kinds that no table has, on the qubits a, b, c.
#[tactic(auto, unfolding(kinds::specs::Kinds::of_tables))]
fn more_kind_step(
    m: &mut [Coefficient; 4096],
    n: usize,
    kind: GateKind,
    a: u32,
    b: u32,
    c: u32,
    k: u16,
) -> Option<u16>
    requires n_bound { n ≤ 5 }
    requires kind_value { of_tables (told_kind kind) ≡ false }
    requires proper { Proper n (gate n (told_kind kind) a b c) }
    requires ready { Ready n k m.old }
    ensures { Stepped n k (gate n (told_kind kind) a b c) m.old m.new result }
{
    let s = places::row_bit(n, a);
    let t = places::row_bit(n, b);
    let u = places::row_bit(n, c);
    let bit_s = places::mask(s);
    match kind {
        GateKind::Y => steps::y_step(m, n, 0, s, k),
        GateKind::Sx => steps::sx_step(m, n, s, k),
        GateKind::Swap => steps::swap_step(m, n, 0, s, t, k),
        GateKind::Cy => steps::y_step(m, n, bit_s, t, k),
        GateKind::Ch => steps::ch_step(m, n, bit_s, t, k),
        GateKind::Cswap => steps::swap_step(m, n, bit_s, t, u, k),
        _ => unreachable!(),
    }
}

// The gate of a kind on the qubits a, b, c.
#[tactic(auto, unfolding(kinds::specs::Kinds::of_tables))]
fn kind_step(
    m: &mut [Coefficient; 4096],
    n: usize,
    kind: GateKind,
    a: u32,
    b: u32,
    c: u32,
    k: u16,
) -> Option<u16>
    requires n_bound { n ≤ 5 }
    requires proper { Proper n (gate n (told_kind kind) a b c) }
    requires ready { Ready n k m.old }
    ensures { Stepped n k (gate n (told_kind kind) a b c) m.old m.new result }
{
    let s = places::row_bit(n, a);
    let t = places::row_bit(n, b);
    let u = places::row_bit(n, c);
    let bit_s = places::mask(s);
    let bit_t = places::mask(t);
    let bit_u = places::mask(u);
    match kind {
        GateKind::H => steps::h_step(m, n, s, k),
        GateKind::X => steps::exchange_step(m, n, 0, s, k),
        GateKind::Z => steps::phase_step(m, n, bit_s, 4, k),
        GateKind::S => steps::phase_step(m, n, bit_s, 2, k),
        GateKind::Sdg => steps::phase_step(m, n, bit_s, 6, k),
        GateKind::T => steps::phase_step(m, n, bit_s, 1, k),
        GateKind::Tdg => steps::phase_step(m, n, bit_s, 7, k),
        GateKind::Cx => steps::exchange_step(m, n, bit_s, t, k),
        GateKind::Cz => steps::phase_step(m, n, bit_s | bit_t, 4, k),
        GateKind::Ccx => steps::exchange_step(m, n, bit_s | bit_t, u, k),
        GateKind::Ccz => steps::phase_step(m, n, bit_s | (bit_t | bit_u), 4, k),
        _ => made_anew(more_kind_step(m, n, kind, a, b, c, k)),
    }
}

// The gate of a valid code, applied on the left.
pub fn apply_gate_left(
    m: &mut [Coefficient; 4096],
    n: usize,
    gate: LibraryGate,
    k: u16,
) -> Option<u16>
    requires n_bound { n ≤ 5 }
    requires gate_value { valid n gate.0 ≡ true }
    requires ready { Ready n k m.old }
    ensures { Stepped n k (gate_of n gate.0) m.old m.new result }
{
    let kind = gate.gate_kind().unwrap();
    kind_step(m, n, kind, gate.first(), gate.second(), gate.third(), k)
}
