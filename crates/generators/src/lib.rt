// The generators of a basis at a width, in order. murm.rs of the original, `library_gates`: nested loops run over kinds
// and operands, and a code is kept where it is valid. Each loop has one invariant (`Filled`).
#![tactic(auto)]

ghost use Rattle.std.specs.Prelude.{◌≡◌, ◌+◌, ◌<◌, ◌≤◌, length};
ghost use Rattle.std.proofs.lemmas.List.Edits.{sets};
ghost use Rattle.circuit.specs.Codes.{code_of};
ghost use Rattle.generators.specs.Generators.{most, tried, kept, generators, Lists};

use circuit::{GateSet, LibraryGate};

// The kinds below this number are tried: the last that a basis allows is Ccz, 11.
const KINDS: u32 = 12;

// The most generators that a basis has at a width up to 5.
pub const MOST: usize = 105;

fn code_of(kind: u32, a: u32, b: u32, c: u32) -> u32
    requires { (kind < tried) × (a < 16) × (b < 16) × (c < 16) }
    ensures { result ≡ code_of kind a b c }
{
    kind * 4096 + a * 256 + b * 16 + c
}

// Writes the code at the place `count` if it is valid, and returns the place after what it wrote.
#[tactic(auto, unfolding(crate::specs::Generators::kept))]
fn push_valid(n: u32, basis: GateSet, code: u32, gates: &mut [u32; MOST], count: usize) -> usize
    requires { count + length (kept n basis.0 code) ≤ most }
    ensures next { result ≡ count + length (kept n basis.0 code) }
    ensures written { gates.new ≡ sets gates.old count (kept n basis.0 code) }
{
    if !LibraryGate(code).is_valid_for(n, basis) {
        return count;
    }
    gates[count] = code;
    count + 1
}

// Writes the generators of a basis at a width up to 5 to the first places, in order, and returns how many they are.
pub fn library_gates(width: u32, basis: GateSet, gates: &mut [u32; MOST]) -> usize
    requires { width ≤ 5 }
    ensures counted { result ≡ length (generators width basis.0) }
    ensures written { gates.new ≡ sets gates.old 0 (generators width basis.0) }
    ensures listed { Lists width basis.0 (generators width basis.0) }
    ensures room { result ≤ most }
{
    let mut at: usize = 0;
    for kind in 0..KINDS {
        for a in 0..width {
            for b in 0..width {
                for c in 0..width {
                    at = push_valid(width, basis, code_of(kind, a, b, c), gates, at);
                }
            }
        }
    }
    at
}
