// Whether a candidate counts as known in a width that is being built (SPECIFICATION 6.7, 6.16): by its fingerprint
// alone, or, where clashing nodes are kept, by a node that has the fingerprint and is equal up to phase, which is the
// find of an answer. A candidate's matrix is formed again only where a node has its fingerprint.
#![tactic(auto)]

ghost use Rattle.std.specs.Prelude.{◌≡◌, true, ◌≤◌, length};
ghost use Rattle.circuit.specs.Codes.{valid};
ghost use Rattle.exact.specs.Rows.{act, gate_of};
ghost use Rattle.exact.specs.Fits.{step_fits};
ghost use Rattle.exact.specs.Places.{held};
ghost use Rattle.places.specs.Held.{Ready};
ghost use Rattle.walk.specs.Lookup.{found};
ghost use Rattle.walk.specs.Finds.{looked_in, find_by, is_node};
ghost use Rattle.index.specs.Told.{told_part};
ghost use Rattle.synthesis_arena.specs.Limits.{told_limits};
ghost use Rattle.synthesis_arena.specs.Lookup.{told_found};
ghost use Rattle.node_answer.specs.Answers.{AskedPlaces};
ghost use Rattle.known.specs.Known.{told_mode, is_known};
ghost use Rattle.looked_ahead.specs.Ahead.{Hint};

use cyclotomic::Coefficient;
use index::Part;
use synthesis_arena::WidthLimits;

// What makes a candidate known while a table is built: a node with its fingerprint, or one that is equal up to phase
// besides, so that clashing nodes are both kept.
#[derive(Clone, Copy)]
pub enum BuildMode {
    ByPrint,
    Keeping,
}

// A generator after a node: its code, the fingerprint of the matrix that it gives, and the node that was found ahead
// for that fingerprint, or the mark.
#[derive(Clone, Copy)]
pub struct Candidate {
    pub gate: u32,
    pub print: u64,
    pub ahead: u32,
}

// Whether the search from the first node with the fingerprint on finds one for the matrix. The chains of a table that
// is being built are good.
fn has_equal(
    limits: WidthLimits,
    part: Part<'_>,
    node: usize,
    print: u64,
    exponent: u16,
    candidate: &[Coefficient],
    scratch: &mut [Coefficient; 4096],
) -> bool
    requires bounds { (limits.width ≤ 5) × (limits.gates ≤ 64) }
    requires within { (part.count ≤ length part.fingerprints.now) × (part.count ≤ length part.parents.now)
        × (part.count ≤ length part.codes.now) }
    requires first { looked_in (told_part part) 0 print ≡ found node }
    requires asked { AskedPlaces limits.width candidate.now }
    ensures found { result ≡ is_node (find_by (told_limits limits) (told_part part.entry) print
        (held limits.width exponent candidate.now)) }
{
    identity::set_identity(scratch, limits.width as usize);
    let mut list: [u32; 64] = [0; 64];
    match width_answer::find_at(
        limits, part, node, print, exponent, candidate, &mut list, scratch,
    ) {
        Ok(Some(_)) => true,
        Ok(None) => false,
        Err(_) => false,
    }
}

// The same for the candidate that the gate gives after the matrix m, which is formed in lent places. Its step fits, so
// the other arm is not taken.
fn has_candidate(
    limits: WidthLimits,
    part: Part<'_>,
    node: usize,
    candidate: Candidate,
    exponent: u16,
    m: &[Coefficient],
    formed: &mut [Coefficient; 4096],
    scratch: &mut [Coefficient; 4096],
) -> bool
    requires bounds { (limits.width ≤ 5) × (limits.gates ≤ 64) }
    requires within { (part.count ≤ length part.fingerprints.now) × (part.count ≤ length part.parents.now)
        × (part.count ≤ length part.codes.now) }
    requires first { looked_in (told_part part) 0 candidate.print ≡ found node }
    requires ready { Ready limits.width exponent m.now }
    requires gate { (valid limits.width candidate.gate ≡ true)
        × (step_fits limits.width (gate_of limits.width candidate.gate) (held limits.width exponent m.now) ≡ true) }
    ensures found { result ≡ is_node (find_by (told_limits limits) (told_part part.entry) candidate.print
        (act limits.width (gate_of limits.width candidate.gate) (held limits.width exponent m.now))) }
{
    let Some(k) = node_matrix::apply_to_copy(
        limits.width as usize,
        candidate.gate,
        exponent,
        m,
        formed,
    ) else {
        return false;
    };
    has_equal(limits, part, node, candidate.print, k, formed, scratch)
}

// Whether the candidate that the gate gives after the matrix m is known in the mode. Two matrices may be formed in lent
// places; what they hold afterwards is not told.
pub fn is_known(
    mode: BuildMode,
    limits: WidthLimits,
    part: Part<'_>,
    candidate: Candidate,
    exponent: u16,
    m: &[Coefficient],
    formed: &mut [Coefficient; 4096],
    scratch: &mut [Coefficient; 4096],
) -> bool
    requires bounds { (limits.width ≤ 5) × (limits.gates ≤ 64) }
    requires within { (part.count ≤ length part.fingerprints.now) × (part.count ≤ length part.parents.now)
        × (part.count ≤ length part.codes.now) }
    requires ahead { Hint (looked_in (told_part part) 0 candidate.print) candidate.ahead }
    requires ready { Ready limits.width exponent m.now }
    requires gate { (valid limits.width candidate.gate ≡ true)
        × (step_fits limits.width (gate_of limits.width candidate.gate) (held limits.width exponent m.now) ≡ true) }
    ensures known { result ≡ is_known (told_mode mode) (told_limits limits) (told_part part.entry) candidate.print
        (act limits.width (gate_of limits.width candidate.gate) (held limits.width exponent m.now)) }
{
    let Some(node) = looked_ahead::first_node(part, candidate.print, candidate.ahead) else {
        return false;
    };
    match mode {
        BuildMode::ByPrint => true,
        BuildMode::Keeping => has_candidate(
            limits, part, node, candidate, exponent, m, formed, scratch,
        ),
    }
}
