// The words `matrix`, `find` and `write` of `inspect`: what the table at hand tells. A line is read by inspect_read,
// and what the table told, or why it was refused, is handed on as one value: so no function has both the arrays of the
// table and the output but the last.
#![tactic(auto)]

ghost use Rattle.std.specs.Prelude.{◌+◌, ◌≤◌, length};

use circuits_text::{NEWLINE, SPACE};
use index::LookupBy;
use inspect_room::{Arrays, Lookup};
use murm_config::Murm;
use refusal::Refusal;

// A word that asks a table.
#[derive(Clone, Copy)]
pub enum Asks {
    Matrix,
    Find,
    Write,
}

// What a table told: its answer to a matrix of this fingerprint, the node found for one and how many gates its list
// has, or how long the list of a node is.
#[derive(Clone, Copy)]
enum Told {
    Answer(u64, Option<usize>),
    Found(Option<(usize, usize)>),
    List(usize),
}

// A table is asked for the matrix of a line.
fn ask_matrix(
    by: LookupBy,
    table: Murm,
    arrays: Arrays<'_>,
    index: &[u32],
    rest: &[u8],
    list: &mut [u32],
) -> Result<Told, Refusal> {
    let mut space = inspect_room::coefficient_space();
    let asked = inspect_read::read_matrix(rest, &mut space);
    let (width, k, n) = asked.ok_or(Refusal::BrokenLine)?;
    let fingerprint = inspect_room::fingerprint_of(width, k, &space[..n]);
    let answer = murm::synthesize_by(
        by,
        table,
        arrays.fingerprints,
        arrays.parents,
        arrays.codes,
        index,
        width,
        k,
        &space[..n],
        list,
    )?;
    Ok(Told::Answer(fingerprint, answer))
}

// The node for the matrix of a line is found (SPECIFICATION 7.10).
fn ask_find(
    by: LookupBy,
    table: Murm,
    arrays: Arrays<'_>,
    index: &[u32],
    rest: &[u8],
) -> Result<Told, Refusal> {
    let mut space = inspect_room::coefficient_space();
    let asked = inspect_read::read_matrix(rest, &mut space);
    let (width, k, n) = asked.ok_or(Refusal::BrokenLine)?;
    let found = murm::find_by(
        by,
        table,
        arrays.fingerprints,
        arrays.parents,
        arrays.codes,
        index,
        width,
        k,
        &space[..n],
    )?;
    Ok(Told::Found(found))
}

// The list of the node of a line is written (SPECIFICATION 7.11), into as many of the lent places as the line says.
fn ask_write(
    table: Murm,
    arrays: Arrays<'_>,
    rest: &[u8],
    list: &mut [u32],
) -> Result<Told, Refusal>
    requires { 64 ≤ length list.old }
{
    let wanted = inspect_read::read_node(rest);
    let (width, node, places) = wanted.ok_or(Refusal::BrokenLine)?;
    let size = murm::write(
        table,
        arrays.fingerprints,
        arrays.parents,
        arrays.codes,
        width,
        node as usize,
        &mut list[..places],
    )?;
    Ok(Told::List(size))
}

// A table is asked by a line.
fn ask(
    what: Asks,
    by: LookupBy,
    table: Murm,
    arrays: Arrays<'_>,
    index: &[u32],
    rest: &[u8],
    list: &mut [u32],
) -> Result<Told, Refusal>
    requires { 64 ≤ length list.old }
{
    match what {
        Asks::Matrix => ask_matrix(by, table, arrays, index, rest, list),
        Asks::Find => ask_find(by, table, arrays, index, rest),
        Asks::Write => ask_write(table, arrays, rest, list),
    }
}

// A fingerprint and a space: 17 bytes.
fn put_fingerprint(out: &mut [u8], at: usize, fingerprint: u64) -> usize
    requires { at + 17 ≤ length out.old }
    ensures { result ≤ at + 17 }
{
    let next = circuits_text::put_hex(out, at, fingerprint);
    circuits_text::put_byte(out, next, SPACE)
}

// How many codes a list has, at most 64, and the codes: at most 735 bytes.
fn put_circuit(out: &mut [u8], at: usize, list: &[u32]) -> usize
    requires { (at + 735 ≤ length out.old) × (length list.now ≤ 64) }
    ensures { result ≤ at + 735 }
{
    let next = circuits_text::put_decimal(out, at, list.len() as u64);
    let end = circuits_lines::put_codes(out, next, list);
    circuits_text::put_byte(out, end, NEWLINE)
}

// The list of a node, of this length, in the list lent for it: at most 735 bytes. That it is no longer than the lent one
// is tested, so that no contract of an entry is used.
fn put_written(size: usize, list: &[u32], out: &mut [u8], at: usize) -> usize
    requires { (at + 735 ≤ length out.old) × (length list.now ≤ 64) }
    ensures { result ≤ at + 735 }
{
    match list.get(..size) {
        Some(circuit) => put_circuit(out, at, circuit),
        None => circuits_lines::put_refused(out, at, Refusal::ListTooShort),
    }
}

// The node found: at most 50 bytes.
fn put_found(found: Option<(usize, usize)>, out: &mut [u8], at: usize) -> usize
    requires { at + 50 ≤ length out.old }
    ensures { result ≤ at + 50 }
{
    let Some((node, size)) = found else {
        return circuits_text::put_bytes(out, at, b"none\n");
    };
    let next = circuits_lines::put_number(out, at, node as u64, SPACE);
    circuits_lines::put_number(out, next, size as u64, NEWLINE)
}

// A table's answer to a matrix of this fingerprint, with the list lent for it: at most 752 bytes.
fn put_answer(
    fingerprint: u64,
    answer: Option<usize>,
    list: &[u32],
    out: &mut [u8],
    at: usize,
) -> usize
    requires { (at + 752 ≤ length out.old) × (length list.now ≤ 64) }
    ensures { result ≤ at + 752 }
{
    let next = put_fingerprint(out, at, fingerprint);
    match answer {
        Some(size) => put_written(size, list, out, next),
        None => circuits_text::put_bytes(out, next, b"none\n"),
    }
}

// What a table told, with the list lent to it, or why it was refused: at most 752 bytes.
fn put_told(told: Result<Told, Refusal>, list: &[u32], out: &mut [u8], at: usize) -> usize
    requires { (at + 752 ≤ length out.old) × (length list.now ≤ 64) }
    ensures { result ≤ at + 752 }
{
    match told {
        Ok(Told::Answer(fingerprint, answer)) => put_answer(fingerprint, answer, list, out, at),
        Ok(Told::Found(found)) => put_found(found, out, at),
        Ok(Told::List(size)) => put_written(size, list, out, at),
        Err(r) => circuits_lines::put_refused(out, at, r),
    }
}

// Whether a word looks up in an index of more places than there are.
fn no_index(what: Asks, lookup: Lookup, widths: u32, places: usize) -> bool {
    match what {
        Asks::Matrix | Asks::Find => inspect_room::too_large(lookup, widths, places),
        Asks::Write => false,
    }
}

// What the last table tells to a line that asks it.
pub fn put_asked(
    what: Asks,
    lookup: Lookup,
    built: Result<Murm, Refusal>,
    arrays: Arrays<'_>,
    index: &[u32],
    rest: &[u8],
    out: &mut [u8],
    at: usize,
) -> usize
    requires { at + 752 ≤ length out.old }
    ensures { result ≤ at + 752 }
{
    let Ok(table) = built else {
        return circuits_lines::put_refused(out, at, Refusal::BrokenLine);
    };
    if no_index(what, lookup, table.config.max_qubits, index.len()) {
        return circuits_lines::put_refused(out, at, Refusal::BrokenLine);
    }
    let by = lookup.by;
    let end = inspect_room::index_end(table.config.max_qubits, lookup.size, index.len());
    let mut list = [0u32; 64];
    let told = ask(what, by, table, arrays, &index[..end], rest, &mut list);
    put_told(told, &list, out, at)
}
