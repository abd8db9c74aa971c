// The node that answers a matrix in one width's part of a lent table, whatever its three arrays hold (SPECIFICATION 7.4
// to 7.6). murm.rs of the original, `Murm::synthesize`, below the public entries. A build that keeps clashing nodes
// asks it too (crate `known`): it has looked the first node up already, so the search stands apart from the first
// look-up.
#![tactic(auto)]

ghost use Rattle.std.specs.Prelude.{◌≡◌, ◌≤◌, length};
ghost use Rattle.exact.specs.Matrix.{identity};
ghost use Rattle.exact.specs.Places.{held};
ghost use Rattle.places.specs.Held.{Holds};
ghost use Rattle.walk.specs.Lookup.{found};
ghost use Rattle.walk.specs.Finds.{looked_in};
ghost use Rattle.index.specs.Told.{told_part};
ghost use Rattle.synthesis_arena.specs.Limits.{told_limits};
ghost use Rattle.node_answer.specs.Answers.{AskedPlaces, told_find};
ghost use Rattle.width_answer.specs.Answers.{PrintFound, ListFound};

use cyclotomic::Coefficient;
use index::Part;
use synthesis_arena::{BadChain, WidthLimits};

// The node of a width's part with a fingerprint whose list passes the recheck against a matrix: by the scan the lowest
// (SPECIFICATION 7.4, 7.15). The caller has looked the first node up, and has put the identity into `scratch`. Nodes
// with the fingerprint are looked at rising: one whose list does not pass is passed over, and a bad chain ends the
// search. Each lies past the one before, so no more are looked at than there are. The list of the node found is left in
// the first places of `list`; what `list` holds where none is found, and what `scratch` holds afterwards, is not told.
pub fn find_at(
    limits: WidthLimits,
    part: Part<'_>,
    node: usize,
    print: u64,
    exponent: u16,
    query: &[Coefficient],
    list: &mut [u32],
    scratch: &mut [Coefficient; 4096],
) -> Result<Option<(usize, usize)>, BadChain>
    requires width_bound { (limits.width ≤ 5) × (limits.gates ≤ length list.old) }
    requires count_in_bounds { (part.count ≤ length part.fingerprints.now) × (part.count ≤ length part.parents.now)
        × (part.count ≤ length part.codes.now) }
    requires asked_places { AskedPlaces limits.width query.now }
    requires print_value { looked_in (told_part part) 0 print ≡ found node }
    requires holds { Holds limits.width 0 scratch.old identity }
    ensures found { PrintFound (told_limits limits) (told_part part.entry) print
        (held limits.width exponent query.now) (told_find result) list.new }
{
    let mut at = node;
    for _turn in 0..part.count {
        match node_answer::find_node(
            limits,
            at,
            exponent,
            part.parents,
            part.codes,
            query,
            list,
            scratch,
        ) {
            Ok(Some(found)) => return Ok(Some(found)),
            Ok(None) => {}
            Err(chain) => return Err(chain), // nothing past it is looked at
        }
        let Some(next) = part.look_up(at + 1, print) else {
            return Ok(None); // none is left
        };
        identity::set_identity(scratch, limits.width as usize);
        at = next;
    }
    Ok(None)
}

// The node that answers a matrix in a width's part of a table, by the matrix's own fingerprint.
pub fn find_width(
    limits: WidthLimits,
    part: Part<'_>,
    exponent: u16,
    query: &[Coefficient],
    list: &mut [u32],
) -> Result<Option<(usize, usize)>, BadChain>
    requires width_bound { (limits.width ≤ 5) × (limits.gates ≤ length list.old) }
    requires count_in_bounds { (part.count ≤ length part.fingerprints.now) × (part.count ≤ length part.parents.now)
        × (part.count ≤ length part.codes.now) }
    requires asked_places { AskedPlaces limits.width query.now }
    ensures { ListFound (told_limits limits) (told_part part.entry)
        (held limits.width exponent query.now) (told_find result) list.new }
{
    let print = prints::unitary_fingerprint(query, limits.width as usize, exponent);
    let Some(node) = part.look_up(0, print) else {
        return Ok(None);
    };
    let mut scratch: [Coefficient; 4096] = [0; 4096]; // only here: a miss does without it
    identity::put_identity(&mut scratch, limits.width as usize);
    find_at(
        limits,
        part,
        node,
        print,
        exponent,
        query,
        list,
        &mut scratch,
    )
}
