// A list of gates applied in place, oldest first, up to the first step that does not fit (SPECIFICATION 3.6).
// `library_circuit_matrix` in murm.rs of the original, below the entry: the codes are valid. The caller hands over the
// identity in its own places, so that one array serves many lists.
#![tactic(auto)]

ghost use Rattle.std.specs.Prelude.{◌≡◌, true, ◌≤◌};
ghost use Rattle.ints.specs.Lists.{all};
ghost use Rattle.circuit.specs.Codes.{valid};
ghost use Rattle.exact.specs.Matrix.{identity};
ghost use Rattle.places.specs.Places.{Kept};
ghost use Rattle.places.specs.Held.{Holds};
ghost use Rattle.lists.specs.Walk.{Ended};

use circuit::LibraryGate;
use cyclotomic::Coefficient;

// The gates of a list, oldest first, from the identity in the places on: the exponent where all its steps fit, otherwise
// the position of the first that does not fit (SPECIFICATION 3.6).
pub fn apply_gates(m: &mut [Coefficient; 4096], n: usize, codes: &[u32]) -> Result<u16, usize>
    requires n_bound { n ≤ 5 }
    requires codes_value { all (valid n) codes.now ≡ true }
    requires holds { Holds n 0 m.old identity }
    ensures ended { Ended n codes.now m.new result }
    ensures kept { Kept n m.old m.new }
{
    let mut k: u16 = 0;
    for (i, code) in codes.iter().enumerate() {
        match matrix::apply_gate_left(m, n, LibraryGate(*code), k) {
            Some(j) => k = j,
            None => return Err(i),
        }
    }
    Ok(k)
}
