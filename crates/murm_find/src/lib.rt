// The find: its rows, the search (SPECIFICATION 7.10), and the answer, which is the search with row 12 and a copy of
// the list found. Whatever looks a matrix up in a table uses `check_lent`, then `find_any`, which takes the limits and
// the width's count, not the record; `check_find` is for a caller that has only the lengths of the arrays. These stand
// below the entries, so that the entries of later requests have them, and above the search of a width's part, so that
// an edit of one is proved without the other.
#![tactic(auto)]

ghost use Rattle.std.specs.Prelude.{◌≡◌, false, ◌≤◌, ◌<◌, length};
ghost use Rattle.walk.specs.Answers.{outcome as replied};
ghost use Rattle.node_answer.specs.Answers.{told_find};
ghost use Rattle.tables.specs.Checks.{room_row};
ghost use Rattle.tables.specs.Tables.{record_row};
ghost use Rattle.index.specs.Told.{told_by};
ghost use Rattle.refusal.specs.Told.{told_check};
ghost use Rattle.murm_config.specs.Told.{told_config, told_murm};
ghost use Rattle.murm_query.specs.Entries.{told_query};
ghost use Rattle.murm_query.specs.Work.{Askable};
ghost use Rattle.murm_part.specs.Told.{told_lent};
ghost use Rattle.murm_part.specs.Work.{Counted, FoundFor};
ghost use Rattle.murm_find.specs.Entries.{asked_of, told_synthesized};
ghost use Rattle.murm_find.specs.Work.{FindChecked, LentChecked};

use cyclotomic::Coefficient;
use index::LookupBy;
use murm_config::{Murm, MurmConfig};
use murm_part::Lent;
use murm_query::Query;
use refusal::Refusal;
use synthesis_arena::BadChain;

// How many places an index has. Of a slice that is a parameter, and not of one in a struct, the check knows that they
// are so few.
fn places_in(index: &[u32]) -> usize
    ensures { (result ≡ length index.now) × (result < 2305843009213693952) }
{
    index.len()
}

// Whether a table with arrays and an index of these lengths may be asked for a matrix; else which row of a find is the
// first to refuse (SPECIFICATION 9.2).
pub fn check_find(
    by: LookupBy,
    table: Murm,
    prints: usize,
    parents: usize,
    codes: usize,
    places: usize,
    width: u32,
    exponent: u16,
    matrix: &[Coefficient],
) -> Result<(), Refusal>
    requires { places < 2305843009213693952 }
    ensures { FindChecked (told_murm table) (told_by by) prints parents codes places width exponent matrix.now (told_check result) }
{
    murm_config::check_look(by, table, prints, parents, codes, places)?;
    murm_query::check_query(Query {
        width,
        exponent,
        matrix,
    })
}

// The same of arrays and an index that are lent, by their lengths.
pub fn check_lent(table: Murm, lent: Lent<'_>, query: Query<'_>) -> Result<(), Refusal>
    ensures { LentChecked (told_murm table) (told_lent lent.entry) (told_query query.entry) (told_check result) }
{
    check_find(
        lent.by,
        table,
        lent.fingerprints.len(),
        lent.parents.len(),
        lent.codes.len(),
        places_in(lent.index),
        query.width,
        query.exponent,
        query.matrix,
    )
}

// The node that answers a matrix that no row up to 11 refuses, with its list in the first places of `list`. A width
// without entries has none (SPECIFICATION 7.3). The limits and the width's count are handed on, and not the record,
// which each call would copy.
pub fn find_any(
    config: MurmConfig,
    lent: Lent<'_>,
    query: Query<'_>,
    count: usize,
    list: &mut [u32],
) -> Result<Option<(usize, usize)>, BadChain>
    requires counted { Counted (told_config config) query.width count }
    requires codes_value { (room_row (told_config config) (told_lent lent)).holds ≡ false }
    requires matrix_value { Askable (told_query query) × (64 ≤ length list.old) }
    ensures { FoundFor (told_config config) count (told_lent lent.entry) (told_query query.entry) (told_find result) list.new }
{
    if count == 0 {
        return Ok(None);
    }
    // taken apart and made anew: handed on as it lies in memory, the answer makes the caller wait (docs/SPEED.md)
    match murm_part::find_part(config, lent, query, count, list) {
        Ok(Some((node, size))) => Ok(Some((node, size))),
        Ok(None) => Ok(None),
        Err(chain) => Err(chain),
    }
}

// Row 12, after which the list of the node found is copied to the lent list: how many gates it has, or none.
pub fn ask(
    table: Murm,
    lent: Lent<'_>,
    query: Query<'_>,
    out: &mut [u32],
) -> Result<Option<usize>, Refusal>
    requires table_value { (record_row (told_murm table)).holds ≡ false }
    requires codes_value { (room_row (told_config table.config) (told_lent lent)).holds ≡ false }
    requires matrix_value { Askable (told_query query) }
    ensures { replied (told_synthesized result) out.new ≡ asked_of (told_murm table) (told_lent lent.entry) (told_query query.entry) out.old }
{
    if out.len() < table.config.max_gates as usize {
        return Err(Refusal::ListTooShort);
    }
    let config = table.config;
    let count = murm_config::count_at(table, query.width);
    let mut list: [u32; 64] = [0; 64];
    match find_any(config, lent, query, count, &mut list)? {
        Some((_, size)) => {
            node_answer::copy_codes(out, &list[..size]);
            Ok(Some(size))
        }
        None => Ok(None),
    }
}
