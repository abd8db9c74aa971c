// The search of the part of a width: which places of each array and of the index belong to the width, by the limits and
// the width's number alone, and the search of these (SPECIFICATION 6.2, 7.16). It stands apart from the find and the
// answer, so that an edit of either is proved without the other.
#![tactic(auto)]

ghost use Rattle.std.specs.Prelude.{◌≡◌, false, ◌+◌, ◌≤◌, ◌<◌, length};
ghost use Rattle.node_answer.specs.Answers.{AskedPlaces, told_find};
ghost use Rattle.width_answer.specs.Answers.{ListFound};
ghost use Rattle.synthesis_arena.specs.Limits.{told_limits};
ghost use Rattle.tables.specs.Checks.{room_row};
ghost use Rattle.tables.specs.Tables.{matrix_of};
ghost use Rattle.murm_limits.specs.Told.{told_config};
ghost use Rattle.murm_query.specs.Entries.{told_query};
ghost use Rattle.murm_query.specs.Work.{Askable};
ghost use Rattle.murm_part.specs.Told.{told_lent};
ghost use Rattle.murm_part.specs.Work.{part_from, Counted, FoundFor};

use index::{LookupBy, Part};
use murm_limits::MurmConfig;
use murm_query::Query;
use synthesis_arena::{BadChain, WidthLimits};

// The arrays and the index of a table, lent to be read, and how its nodes are looked up (SPECIFICATION 6.2, 7.13).
#[derive(Clone, Copy)]
pub struct Lent<'a> {
    pub by: LookupBy,
    pub fingerprints: &'a [u64],
    pub parents: &'a [u32],
    pub codes: &'a [u32],
    pub index: &'a [u32],
}

// The places from `start` on, as many as a width has, and the `size` places of the index from `place` on, are searched.
fn find_from(
    lent: Lent<'_>,
    limits: WidthLimits,
    start: usize,
    place: usize,
    size: usize,
    count: usize,
    query: Query<'_>,
    list: &mut [u32],
) -> Result<Option<(usize, usize)>, BadChain>
    requires width_bound { (limits.width ≡ query.width) × (limits.width ≤ 5) × (limits.gates ≤ length list.old) }
    requires start_bound { (start ≤ 5000000) × (limits.entries ≤ 1000000) × (count ≤ limits.entries) }
    requires entries_in_bounds { (start + limits.entries ≤ length lent.fingerprints.now) × (start + limits.entries ≤ length lent.parents.now)
        × (start + limits.entries ≤ length lent.codes.now) × (place + size ≤ length lent.index.now) }
    requires asked_places { AskedPlaces limits.width query.matrix.now }
    ensures { ListFound (told_limits limits) (part_from (told_lent lent.entry) start limits.entries count place size)
        (matrix_of (told_query query.entry)) (told_find result) list.new }
{
    let end = start + limits.entries;
    let part = Part {
        by: lent.by,
        count,
        fingerprints: &lent.fingerprints[start..end],
        parents: &lent.parents[start..end],
        codes: &lent.codes[start..end],
        index: &lent.index[place..place + size],
    };
    width_answer::find_width(
        limits,
        part,
        query.exponent,
        // all of it, made anew: a slice that is handed on as it lies is copied as one word of 16 bytes, and that load
        // waits for the two stores before it (docs/SPEED.md)
        &query.matrix[0..query.matrix.len()],
        list,
    )
}

// The part of a width that has entries is searched.
pub fn find_part(
    config: MurmConfig,
    lent: Lent<'_>,
    query: Query<'_>,
    count: usize,
    list: &mut [u32],
) -> Result<Option<(usize, usize)>, BadChain>
    requires counted { Counted (told_config config) query.width count × (0 < count) }
    requires codes_value { (room_row (told_config config) (told_lent lent)).holds ≡ false }
    requires matrix_value { Askable (told_query query) × (64 ≤ length list.old) }
    ensures { FoundFor (told_config config) count (told_lent lent.entry) (told_query query.entry) (told_find result) list.new }
{
    let e = config.max_entries_per_qubit as usize;
    let size = lent.index.len() / config.max_qubits as usize;
    let before = query.width as usize - 1;
    let basis = config.basis;
    let limits = WidthLimits {
        width: query.width,
        basis: basis.0,
        gates: config.max_gates as usize,
        entries: e,
    };
    find_from(
        lent,
        limits,
        before * e,
        before * size,
        size,
        count,
        query,
        list,
    )
}
