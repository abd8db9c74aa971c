// One candidate of a width, a generator after a node, where it is neither pruned nor unfit (SPECIFICATION 6.7, 6.8).
// The order of the tests matters: whether a candidate is known is asked before the count is held against the entry
// limit, so that a full width is saturated only by a candidate that it lacks.
#![tactic(auto)]

ghost use Rattle.std.specs.Prelude.{◌≡◌, true, length};
ghost use Rattle.circuit.specs.Codes.{valid};
ghost use Rattle.exact.specs.Rows.{act, gate_of};
ghost use Rattle.exact.specs.Fits.{step_fits};
ghost use Rattle.exact.specs.Places.{held};
ghost use Rattle.places.specs.Places.{places};
ghost use Rattle.places.specs.Held.{Ready};
ghost use Rattle.walk.specs.Index.{looked_up};
ghost use Rattle.index.specs.Told.{told_by};
ghost use Rattle.known.specs.Known.{told_mode};
ghost use Rattle.looked_ahead.specs.Ahead.{Hint};
ghost use Rattle.width_arrays.specs.Arrays.{Room};
ghost use Rattle.next_node.specs.Append.{Appended};

use cyclotomic::Coefficient;
use index::{LookupBy, Part};
use known::{BuildMode, Candidate};
use synthesis_arena::WidthLimits;
use width_arrays::Tried;

// A candidate that fits, a gate after the node, whose matrix is m: a known one is skipped, an unknown one is appended,
// or saturates a width that is full. Two matrices may be formed in lent places; what they hold afterwards is not told.
pub fn append(
    mode: BuildMode,
    by: LookupBy,
    limits: WidthLimits,
    count: usize,
    node: usize,
    candidate: Candidate,
    exponent: u16,
    fingerprints: &mut [u64],
    parents: &mut [u32],
    codes: &mut [u32],
    index: &mut [u32],
    m: &[Coefficient],
    left: &mut [Coefficient; 4096],
    right: &mut [Coefficient; 4096],
) -> Tried
    requires room { Room (told_by by) limits count node fingerprints.old parents.old codes.old index.old }
    requires ahead { Hint (looked_up (told_by by) index.old fingerprints.old count 0 candidate.print) candidate.ahead }
    requires ready { Ready limits.width exponent m.now }
    requires gate { (valid limits.width candidate.gate ≡ true)
        × (step_fits limits.width (gate_of limits.width candidate.gate) (held limits.width exponent m.now) ≡ true) }
    requires long { (length left.old ≡ places) × (length right.old ≡ places) }
    ensures appended { Appended (told_mode mode) (told_by by) limits count node candidate.gate candidate.print
        (act limits.width (gate_of limits.width candidate.gate) (held limits.width exponent m.now))
        fingerprints.old parents.old codes.old index.old
        fingerprints.new parents.new codes.new index.new result }
    ensures long { (length left.new ≡ places) × (length right.new ≡ places) }
{
    let part = Part {
        by,
        count,
        fingerprints,
        parents,
        codes,
        index,
    };
    if known::is_known(mode, limits, part, candidate, exponent, m, left, right) {
        return Tried {
            count,
            saturated: false, // also at count E
        };
    }
    width_arrays::put_node(
        by,
        limits,
        count,
        node,
        candidate.gate,
        candidate.print,
        fingerprints,
        parents,
        codes,
        index,
    )
}
