// The parts of the output of the program `circuits`: a width's lines, and the line of a query (SPECIFICATION 10.5,
// 10.6). They stand apart from what joins them (circuits_built, circuits_output), which carries must-fail edits and is
// proved again for each of these.
#![tactic(auto)]

ghost use Rattle.std.specs.Prelude.{◌≡◌, ◌+◌, ◌*◌, ◌<◌, ◌≤◌, length};
ghost use Rattle.tables.specs.Tables as t;
ghost use Rattle.murm_find.specs.Entries.{told_synthesized};
ghost use Rattle.circuits_text.specs.Writing.{Put};
ghost use Rattle.circuits_input.specs.Input.{ended};
ghost use Rattle.circuits_answers.specs.Told.{told_record, told_arrays};
ghost use Rattle.circuits_parts.specs.Texts.{width_text, table_text, Printable, reply_text, lent_list, query_text};

use circuits_answers::Table;
use refusal::Refusal;

// A width of a table: at most 90 bytes and 33 for each of its places, and 10 more are left.
fn put_width(table: Table<'_>, width: u32, out: &mut [u8], at: usize) -> usize
    requires width_nonzero { (0 < width) × (width ≤ table.record.config.max_qubits) }
    requires printable { Printable (t.table (told_record table)) table.parents.now table.codes.now }
    requires max_entries_per_qubit_in_bounds { at + 33 * table.record.config.max_entries_per_qubit + 100 ≤ length out.old }
    ensures text { Put at (width_text (told_record table.entry) table.entry.parents.now table.entry.codes.now width) result out.old out.new }
    ensures most { result ≤ at + 33 * table.entry.record.config.max_entries_per_qubit + 90 }
{
    let e = table.record.config.max_entries_per_qubit as usize;
    let start = (width as usize - 1) * e;
    let row = murm_config::width_table(table.record, width);
    let next = circuits_lines::put_table_line(out, at, width, row);
    circuits_lines::put_nodes(start, row.count, table.parents, table.codes, out, next)
}

// The widths of a table, rising.
pub fn put_widths(table: Table<'_>, out: &mut [u8]) -> usize
    requires printable { Printable (t.table (told_record table)) table.parents.now table.codes.now }
    requires max_entries_per_qubit_in_bounds { table.record.config.max_qubits * (33 * table.record.config.max_entries_per_qubit + 90) + 10 ≤ length out.old }
    ensures text { Put 0 (table_text (told_record table.entry) table.entry.parents.now table.entry.codes.now) result out.old out.new }
    ensures most { result ≤ table.entry.record.config.max_qubits * (33 * table.entry.record.config.max_entries_per_qubit + 90) }
{
    let q = table.record.config.max_qubits;
    let mut p = 0;
    for w in 0..q {
        p = put_width(table, w + 1, out, p);
    }
    p
}

// What a table answered, with the list lent to it: at most 746 bytes, where 756 are left.
fn put_reply(
    answer: Result<Option<usize>, Refusal>,
    list: &[u32],
    out: &mut [u8],
    at: usize,
) -> usize
    requires { (at + 756 ≤ length out.old) × (length list.now ≤ 64) }
    ensures text { Put at (reply_text (told_synthesized answer) list.now) result out.old out.new }
    ensures most { result ≤ at + 746 }
{
    match answer {
        Ok(Some(m)) => {
            if list.len() < m {
                return circuits_lines::put_answer(out, at, list);
            }
            circuits_lines::put_answer(out, at, &list[..m])
        }
        Ok(None) => circuits_text::put_bytes(out, at, b"none\n"),
        Err(r) => circuits_lines::put_refused(out, at, r),
    }
}

// The list lent to an answer.
fn list_space() -> [u32; 64]
    ensures { result ≡ lent_list }
{
    [0; 64]
}

// A query's line, given without its newline, is answered: at most 746 bytes, where 756 are left.
pub fn put_query(table: Table<'_>, line: &[u8], out: &mut [u8], at: usize) -> usize
    requires { at + 756 ≤ length out.old }
    ensures text { Put at (query_text (told_record table.entry) (told_arrays table.entry) (ended line.now)) result out.old out.new }
    ensures most { result ≤ at + 746 }
{
    let mut list = list_space();
    let answer = circuits_answers::answer_line(table, line, &mut list);
    put_reply(answer, &list, out, at)
}
