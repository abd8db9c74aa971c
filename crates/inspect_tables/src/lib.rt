// The words `table` and `clashes` of `inspect`: a table is built, and its widths and nodes are printed. That nodes lie
// within the arrays is tested here, so that no contract of a build is used: what is printed is then what a build left,
// whatever was proved of it.
#![tactic(auto)]

ghost use Rattle.std.specs.Prelude.{◌+◌, ◌≤◌, IfOk, length, OnErr, ◌≡◌};

use circuits_text::{NEWLINE, SPACE};
use inspect_room::{Arrays, Lookup};
use known::BuildMode;
use murm_config::{Murm, MurmConfig};
use refusal::Refusal;
use std::io;

// Fingerprint, parent, code: at most 59 bytes.
fn put_node(out: &mut [u8], at: usize, fingerprint: u64, parent: u32, code: u32) -> usize
    requires { at + 59 ≤ length out.old }
    ensures { result ≤ at + 59 }
{
    let first = circuits_text::put_hex(out, at, fingerprint);
    let second = circuits_text::put_byte(out, first, SPACE);
    let third = circuits_lines::put_number(out, second, parent as u64, SPACE);
    circuits_lines::put_number(out, third, code as u64, NEWLINE)
}

// The nodes from start up to end.
fn put_nodes(
    rt: &impl Print,
    start: usize,
    end: usize,
    arrays: Arrays<'_>,
    out: &mut [u8],
    filled: usize,
) -> io::Result<usize>
    requires filled_bound { (filled ≤ 65536) × (65536 ≤ length out.old) }
    requires end_in_bounds { (end ≤ length arrays.fingerprints.now) × (end ≤ length arrays.parents.now) × (end ≤ length arrays.codes.now) }
    ensures { IfOk result (λ n. n ≤ 65536) }
{
    let mut p = filled;
    for i in start..end {
        let next = inspect_room::make_room(rt, out, p)?;
        p = put_node(
            out,
            next,
            arrays.fingerprints[i],
            arrays.parents[i],
            arrays.codes[i],
        );
    }
    Ok(p)
}

// A width's row and its nodes. That they are within the arrays is tested, so that no contract of the build is used.
fn put_width(
    rt: &impl Print,
    table: Murm,
    width: u32,
    arrays: Arrays<'_>,
    out: &mut [u8],
    filled: usize,
) -> io::Result<usize>
    requires { (1 ≤ width) × (filled ≤ 65536) × (65536 ≤ length out.old) }
    ensures { IfOk result (λ n. n ≤ 65536) }
{
    let row = murm_config::width_table(table, width);
    let start = inspect_room::product(width - 1, table.config.max_entries_per_qubit);
    let places = arrays
        .fingerprints
        .len()
        .min(arrays.parents.len())
        .min(arrays.codes.len());
    let end = inspect_room::part_end(start, row.count, places);
    let at = inspect_room::make_room(rt, out, filled)?;
    let next = circuits_lines::put_table_line(out, at, width, row);
    put_nodes(rt, start, end, arrays, out, next)
}

// Each width of a table.
fn put_widths(
    rt: &impl Print,
    table: Murm,
    arrays: Arrays<'_>,
    out: &mut [u8],
    filled: usize,
) -> io::Result<usize>
    requires { (filled ≤ 65536) × (65536 ≤ length out.old) }
    ensures { IfOk result (λ n. n ≤ 65536) }
{
    let q = table.config.max_qubits;
    let mut p = filled;
    for w in 0..q {
        p = put_width(rt, table, w + 1, arrays, out, p)?;
    }
    Ok(p)
}

// A table that was built, or the refusal. A write that fails on the way is told by its error, and leaves as many lent
// bytes.
pub fn put_table(
    rt: &impl Print,
    built: Result<Murm, Refusal>,
    arrays: Arrays<'_>,
    out: &mut [u8],
    at: usize,
) -> io::Result<usize>
    requires { (at ≤ 16346) × (65536 ≤ length out.old) }
    ensures most { IfOk result (λ n. n ≤ 65536) }
    ensures failed { OnErr result (length out.new ≡ length out.old) }
{
    match built {
        Ok(table) => put_widths(rt, table, arrays, out, at),
        Err(r) => Ok(circuits_lines::put_refused(out, at, r)),
    }
}

// A table is built, with its parts of the index; not where these are more places than there are.
fn build(
    mode: BuildMode,
    lookup: Lookup,
    config: MurmConfig,
    fingerprints: &mut [u64],
    parents: &mut [u32],
    codes: &mut [u32],
    index: &mut [u32],
) -> Result<Murm, Refusal> {
    if inspect_room::too_large(lookup, config.max_qubits, index.len()) {
        return Err(Refusal::BrokenLine);
    }
    let by = lookup.by;
    let end = inspect_room::index_end(config.max_qubits, lookup.size, index.len());
    murm::build_by(
        mode,
        by,
        config,
        fingerprints,
        parents,
        codes,
        &mut index[..end],
    )
}

// What follows the word `table` or `clashes` and its space, Q G E B, builds a table.
pub fn build_line(
    mode: BuildMode,
    lookup: Lookup,
    rest: &[u8],
    fingerprints: &mut [u64],
    parents: &mut [u32],
    codes: &mut [u32],
    index: &mut [u32],
) -> Result<Murm, Refusal> {
    let config = circuits_input::read_line_one(rest)?;
    build(mode, lookup, config, fingerprints, parents, codes, index)
}
