// What a build came to, as text: its table and a line for each later line of the input, or its refusal (SPECIFICATION
// 10.5, 10.6). The loop over the lines and what joins them to the table carry must-fail edits, so that they stand
// without the parts that they put.
#![tactic(auto)]

ghost use Rattle.std.specs.Prelude.{◌+◌, ◌*◌, ◌≤◌, length};
ghost use Rattle.murm_build.specs.Entries.{told_building};
ghost use Rattle.circuits_text.specs.Writing.{Put};
ghost use Rattle.circuits_input.specs.Input.{lines_of, input_most};
ghost use Rattle.circuits_answers.specs.Lent.{lent};
ghost use Rattle.circuits_answers.specs.Told.{told_record, told_arrays};
ghost use Rattle.circuits_parts.specs.Texts.{Printable, query_texts};
ghost use Rattle.circuits_built.specs.Built.{reply_then, room_for};

use circuits_answers::Table;
use circuits_text::NEWLINE;
use murm_config::Murm;
use refusal::Refusal;

// Each later line: at most 187 bytes for each byte of them, where 756 more are left.
fn put_queries(table: Table<'_>, later: &[u8], out: &mut [u8], at: usize) -> usize
    requires { at + 187 * length later.now + 756 ≤ length out.old }
    ensures { Put at (query_texts (told_record table.entry) (told_arrays table.entry) (lines_of later.now)) result out.old out.new }
{
    let mut p = at;
    let mut i = 0;
    // a turn is a line and not a place: the next begins after the newline that was found
    while i < later.len() {
        let e = circuits_text::find(later, i, NEWLINE);
        if later.len() <= e {
            return circuits_lines::put_refused(out, p, Refusal::BrokenLine);
        }
        p = circuits_parts::put_query(table, &later[i..e], out, p);
        i = e + 1;
    }
    p
}

// What a build came to: its table and the later lines, or its refusal. It takes what was answered and the arrays, and
// not a `Table`, since a build that is refused has none.
pub fn put_built(
    built: Result<Murm, Refusal>,
    fingerprints: &[u64],
    parents: &[u32],
    codes: &[u32],
    later: &[u8],
    out: &mut [u8],
) -> usize
    requires printable { Printable (told_building built) parents.now codes.now }
    requires later_len_bound { (length later.now ≤ input_most) × (room_for (length parents.now) ≤ length out.old) }
    ensures { Put 0 (reply_then (told_building built) (lent fingerprints parents codes) (lines_of later.now)) result out.old out.new }
{
    match built {
        Ok(record) => {
            let table = Table {
                record,
                fingerprints,
                parents,
                codes,
            };
            let next = circuits_parts::put_widths(table, out);
            put_queries(table, later, out, next)
        }
        Err(r) => circuits_lines::put_refused(out, 0, r),
    }
}
