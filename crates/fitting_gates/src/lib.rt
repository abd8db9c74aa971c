// Of some gates after a matrix those whose step fits, with the fingerprints of the candidates, worked two by two. What
// does not fit is left out here, before any candidate is looked up: whether a step fits depends on the node's matrix
// and the gate alone, not on the nodes that a width has.
#![tactic(auto)]

ghost use Rattle.std.specs.Prelude.{◌≡◌, ◌≤◌, ◌<◌, length, take};
ghost use Rattle.exact.specs.Places.{held};
ghost use Rattle.places.specs.Places.{places};
ghost use Rattle.places.specs.Held.{Ready};
ghost use Rattle.fitting_gates.specs.Fitting.{unfit, candidate_print, LeftOf, ValidTo, Room105, placed_gate, placed_print, placed_count};

use cyclotomic::Coefficient;

// One candidate that was formed: where it fits, its gate and its fingerprint are put at a place. Returns the next
// place.
fn put_formed(
    place: usize,
    gate: u32,
    formed: Option<(u64, u16)>,
    kept: &mut [u32; 105],
    prints: &mut [u64; 105],
) -> usize
    requires room { (place < length kept.old) × (place < length prints.old) × (length kept.old ≡ 105) }
    ensures next { result ≡ placed_count formed place }
    ensures gates { kept.new ≡ placed_gate formed gate kept.old place }
    ensures prints { prints.new ≡ placed_print formed prints.old place }
{
    let Some((print, _)) = formed else {
        return place;
    };
    kept[place] = gate;
    prints[place] = print;
    place + 1
}

// Of the gates in the first places those whose step fits after the matrix m, with the fingerprints of the candidates,
// two by two. Both are put into the first places; how many they are is returned. The last of an odd number is formed
// beside itself: a function that is called in two places is compiled apart, and the two fingerprints are then worked
// faster (docs/SPEED.md).
pub fn fitting(
    n: usize,
    exponent: u16,
    size: usize,
    kept: &mut [u32; 105],
    prints: &mut [u64; 105],
    m: &[Coefficient],
    left: &mut [Coefficient; 4096],
    right: &mut [Coefficient; 4096],
) -> usize
    requires narrow { n ≤ 5 }
    requires ready { Ready n exponent m.now }
    requires room { Room105 size kept.old prints.old }
    requires valid { ValidTo n kept.old size }
    requires long { (length left.old ≡ places) × (length right.old ≡ places) }
    ensures fitting { LeftOf (unfit n (held n exponent m.now)) (candidate_print n (held n exponent m.now))
        (take size kept.old) kept.new prints.new result }
    ensures long { (length left.new ≡ places) × (length right.new ≡ places) }
{
    let mut fit = 0;
    for pair in 0..size / 2 {
        let g = kept[2 * pair];
        let h = kept[2 * pair + 1];
        let two = node_matrix::two_prints(n, g, h, exponent, m, left, right);
        let place = put_formed(fit, g, two.first, kept, prints);
        fit = put_formed(place, h, two.second, kept, prints);
    }
    if size % 2 == 0 {
        return fit;
    }
    let last = kept[size - 1];
    let both = node_matrix::two_prints(n, last, last, exponent, m, left, right);
    put_formed(fit, last, both.first, kept, prints)
}
