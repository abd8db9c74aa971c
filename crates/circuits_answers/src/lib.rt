// Answers a query of the program `circuits`: reads its line, forms the matrix of its list and asks the table for it
// (SPECIFICATION 10.6). The answer is a value and a lent list, and no text: what is asked and what is printed are
// proved apart.
#![tactic(auto)]

ghost use Rattle.std.specs.Prelude.{◌≡◌, ◌≤◌, length};
ghost use Rattle.tables.specs.Tables.{query, synthesized};
ghost use Rattle.circuits_input.specs.Input.{ended};
ghost use Rattle.circuits_answers.specs.Told.{told_record, told_arrays};
ghost use Rattle.circuits_answers.specs.Replies.{told, lent_count, lent_most, list_reply, line_reply};

use cyclotomic::Coefficient;
use murm_config::Murm;
use refusal::Refusal;

// A table that was built, lent to be read: its record and its three arrays (SPECIFICATION 6.2, 6.10).
#[derive(Clone, Copy)]
pub struct Table<'a> {
    pub record: Murm,
    pub fingerprints: &'a [u64],
    pub parents: &'a [u32],
    pub codes: &'a [u32],
}

// How many coefficients a list's matrix has; none for a width that is refused.
pub fn coefficient_count(width: u32) -> usize
    ensures count { result ≡ lent_count width }
    ensures most { result ≤ 4096 }
{
    if 5 < width {
        return 0;
    }
    4 * places::area(width as usize)
}

// Places for the largest matrix.
pub fn coefficient_space() -> [Coefficient; 4096]
    ensures { result ≡ lent_most }
{
    [0; 4096]
}

// Asks the table for a matrix: the node is found, then its list is written. The list has room for the longest, so that
// this is an answer.
fn answer_matrix(
    table: Table<'_>,
    width: u32,
    exponent: u16,
    matrix: &[Coefficient],
    list: &mut [u32],
) -> Result<Option<usize>, Refusal>
    requires { 64 ≤ length list.old }
    ensures { told result list.new ≡ synthesized (told_record table.entry) (told_arrays table.entry) (query width exponent matrix.now) list.old }
{
    let found = murm::find(
        table.record,
        table.fingerprints,
        table.parents,
        table.codes,
        width,
        exponent,
        matrix,
    )?;
    let Some((node, _)) = found else {
        return Ok(None);
    };
    let size = murm::write(
        table.record,
        table.fingerprints,
        table.parents,
        table.codes,
        width,
        node,
        list,
    )?;
    Ok(Some(size))
}

// Forms the matrix of the gates and asks the table for it. A list that is answered stands at the beginning of `list`.
fn answer_list(
    table: Table<'_>,
    width: u32,
    gates: &[u32],
    list: &mut [u32],
) -> Result<Option<usize>, Refusal>
    requires { 64 ≤ length list.old }
    ensures { told result list.new ≡ list_reply (told_record table.entry) (told_arrays table.entry) width gates.now list.old }
{
    let mut space = coefficient_space();
    let n = coefficient_count(width);
    let k = murm::library_circuit_matrix(width, gates, &mut space[..n])?;
    answer_matrix(table, width, k, &space[..n], list)
}

// How many numbers a query has at most: a width, a count, 256 codes.
const NUMBERS_MOST: usize = 258;

// A query's line, given without its newline, is read and answered. A list that is answered stands at the beginning of
// `list`.
pub fn answer_line(
    table: Table<'_>,
    line: &[u8],
    list: &mut [u32],
) -> Result<Option<usize>, Refusal>
    requires { 64 ≤ length list.old }
    ensures { told result list.new ≡ line_reply (told_record table.entry) (told_arrays table.entry) (ended line.now) list.old }
{
    let mut numbers = [0; NUMBERS_MOST];
    let (width, end) = circuits_input::read_query(line, &mut numbers)?;
    answer_list(table, width, &numbers[2..end], list)
}
