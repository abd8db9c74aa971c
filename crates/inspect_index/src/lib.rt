// The words `index`, `scan`, `places` and `fill` of `inspect`: which look-up is used, and what the index holds. An
// index of more places than the program has is refused by 14 where it would be filled or printed, and not where it is
// chosen: a smaller table may follow.
#![tactic(auto)]

ghost use Rattle.std.specs.Prelude.{◌+◌, ◌≤◌, IfOk, length, OnErr, ◌≡◌};

use circuits_text::{NEWLINE, SPACE};
use index::LookupBy;
use inspect_room::{Arrays, Lookup};
use murm_config::Murm;
use refusal::Refusal;
use std::io;
use synthesis_arena::MARK;

// A word about the index; of `index` its M, and how many places that makes.
#[derive(Clone, Copy)]
pub enum IndexWord {
    Index(u32, u32),
    Scan,
    Places,
    Fill,
}

// What follows the word `index` and its space: M.
pub fn index_word(rest: &[u8]) -> Option<IndexWord> {
    match circuits_text::number(rest) {
        Some(m) if m <= 18 => Some(IndexWord::Index(m, 1 << m)),
        _ => None,
    }
}

// The look-up after a line.
pub fn lookup_after(word: IndexWord, last: Lookup) -> Lookup {
    match word {
        IndexWord::Index(_, size) => Lookup {
            by: LookupBy::Index,
            size,
        },
        IndexWord::Scan => Lookup {
            by: LookupBy::Scan,
            size: 1,
        },
        _ => last,
    }
}

// The index is filled from a table.
fn fill_from(table: Murm, size: u32, arrays: Arrays<'_>, index: &mut [u32]) -> Result<(), Refusal> {
    let end = inspect_room::index_end(table.config.max_qubits, size, index.len());
    murm::fill_index(
        table,
        arrays.fingerprints,
        arrays.parents,
        arrays.codes,
        &mut index[..end],
    )
}

// The same of the last table, where an index is used.
fn fill(
    lookup: Lookup,
    built: Result<Murm, Refusal>,
    arrays: Arrays<'_>,
    index: &mut [u32],
) -> Result<(), Refusal> {
    let by = lookup.by;
    let LookupBy::Index = by else {
        return Err(Refusal::BrokenLine);
    };
    let Ok(table) = built else {
        return Err(Refusal::BrokenLine);
    };
    if inspect_room::too_large(lookup, table.config.max_qubits, index.len()) {
        return Err(Refusal::BrokenLine);
    }
    fill_from(table, lookup.size, arrays, index)
}

// What a line does to the index besides a build: `index` empties it, and `fill` fills it, or says why not.
pub fn index_after(
    word: IndexWord,
    lookup: Lookup,
    table: Result<Murm, Refusal>,
    arrays: Arrays<'_>,
    index: &mut [u32],
) -> Result<(), Refusal> {
    match word {
        IndexWord::Index(_, _) => {
            index::clear(index);
            Ok(())
        }
        IndexWord::Fill => fill(lookup, table, arrays, index),
        _ => Ok(()),
    }
}

// `index` and M: at most 27 bytes.
fn put_index(out: &mut [u8], at: usize, m: u32) -> usize
    requires { at + 27 ≤ length out.old }
    ensures { result ≤ at + 27 }
{
    let next = circuits_text::put_bytes(out, at, b"index ");
    circuits_lines::put_number(out, next, m as u64, NEWLINE)
}

// What a fill came to: at most 50 bytes.
fn put_filling(filling: Result<(), Refusal>, out: &mut [u8], at: usize) -> usize
    requires { at + 50 ≤ length out.old }
    ensures { result ≤ at + 50 }
{
    match filling {
        Ok(()) => circuits_text::put_bytes(out, at, b"fill\n"),
        Err(r) => circuits_lines::put_refused(out, at, r),
    }
}

// A place and its node; an empty place has no line.
fn put_place(
    rt: &impl Print,
    out: &mut [u8],
    filled: usize,
    place: usize,
    node: u32,
) -> io::Result<usize>
    requires { (filled ≤ 65536) × (65536 ≤ length out.old) }
    ensures { IfOk result (λ n. n ≤ 65536) }
{
    if node == MARK {
        return Ok(filled);
    }
    let at = inspect_room::make_room(rt, out, filled)?;
    let next = circuits_lines::put_number(out, at, place as u64, SPACE);
    Ok(circuits_lines::put_number(out, next, node as u64, NEWLINE))
}

// The places from start up to end, counted from start.
fn put_part(
    rt: &impl Print,
    start: usize,
    end: usize,
    index: &[u32],
    out: &mut [u8],
    filled: usize,
) -> io::Result<usize>
    requires { (filled ≤ 65536) × (65536 ≤ length out.old) × (end ≤ length index.now) }
    ensures { IfOk result (λ n. n ≤ 65536) }
{
    let mut p = filled;
    for i in start..end {
        p = put_place(rt, out, p, i - start, index[i])?;
    }
    Ok(p)
}

// A width's part of the index.
fn put_width_part(
    rt: &impl Print,
    width: u32,
    size: u32,
    index: &[u32],
    out: &mut [u8],
    filled: usize,
) -> io::Result<usize>
    requires { (1 ≤ width) × (filled ≤ 65536) × (65536 ≤ length out.old) }
    ensures { IfOk result (λ n. n ≤ 65536) }
{
    let start = inspect_room::product(width - 1, size);
    let end = inspect_room::part_end(start, size as usize, index.len());
    let at = inspect_room::make_room(rt, out, filled)?;
    let next = circuits_text::put_bytes(out, at, b"places ");
    let first = circuits_lines::put_number(out, next, width as u64, NEWLINE);
    put_part(rt, start, end, index, out, first)
}

// Each width's part.
fn put_parts(
    rt: &impl Print,
    widths: u32,
    size: u32,
    index: &[u32],
    out: &mut [u8],
    filled: usize,
) -> io::Result<usize>
    requires { (filled ≤ 65536) × (65536 ≤ length out.old) }
    ensures { IfOk result (λ n. n ≤ 65536) }
{
    let mut p = filled;
    for w in 0..widths {
        p = put_width_part(rt, w + 1, size, index, out, p)?;
    }
    Ok(p)
}

// The index of the last table.
fn put_places(
    rt: &impl Print,
    lookup: Lookup,
    built: Result<Murm, Refusal>,
    index: &[u32],
    out: &mut [u8],
    at: usize,
) -> io::Result<usize>
    requires { (at ≤ 16346) × (65536 ≤ length out.old) }
    ensures { IfOk result (λ n. n ≤ 65536) }
{
    let by = lookup.by;
    let LookupBy::Index = by else {
        return Ok(circuits_lines::put_refused(out, at, Refusal::BrokenLine));
    };
    let Ok(table) = built else {
        return Ok(circuits_lines::put_refused(out, at, Refusal::BrokenLine));
    };
    if inspect_room::too_large(lookup, table.config.max_qubits, index.len()) {
        return Ok(circuits_lines::put_refused(out, at, Refusal::BrokenLine));
    }
    put_parts(rt, table.config.max_qubits, lookup.size, index, out, at)
}

// What a word about the index prints. A write that fails on the way is told by its error, and leaves as many lent bytes.
pub fn put_index_word(
    rt: &impl Print,
    word: IndexWord,
    lookup: Lookup,
    table: Result<Murm, Refusal>,
    filling: Result<(), Refusal>,
    index: &[u32],
    out: &mut [u8],
    at: usize,
) -> io::Result<usize>
    requires { (at ≤ 16346) × (65536 ≤ length out.old) }
    ensures most { IfOk result (λ n. n ≤ 65536) }
    ensures failed { OnErr result (length out.new ≡ length out.old) }
{
    match word {
        IndexWord::Index(m, _) => Ok(put_index(out, at, m)),
        IndexWord::Scan => Ok(circuits_text::put_bytes(out, at, b"scan\n")),
        IndexWord::Places => put_places(rt, lookup, table, index, out, at),
        IndexWord::Fill => Ok(put_filling(filling, out, at)),
    }
}
