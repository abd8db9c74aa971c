// The lines that the program `circuits` prints, put into a lent array of bytes (SPECIFICATION 10.5, 10.6). A line's
// function answers the place after the line, and says how many bytes the line has at most: from these bounds it follows
// above that no output is longer than the lent array.
#![tactic(auto)]

ghost use Rattle.std.specs.Prelude.{◌+◌, ◌*◌, ◌≤◌, length, drop};
ghost use Rattle.refusal.specs.Told.{number_of, position_of};
ghost use Rattle.circuits_text.specs.Writing.{Put};
ghost use Rattle.circuits_lines.specs.Lines.{number_then, refused_line, table_line, node_line, node_lines, spaced_code, spaced_codes, answer_line};

use circuits_text::{NEWLINE, SPACE};
use refusal::Refusal;
use width_record::WidthTable;

// A number and a byte after it: at most 21 bytes.
pub fn put_number(out: &mut [u8], at: usize, n: u64, after: u8) -> usize
    requires { at + 21 ≤ length out.old }
    ensures text { Put at (number_then n after) result out.old out.new }
    ensures most { result ≤ at + 21 }
{
    let next = circuits_text::put_decimal(out, at, n);
    circuits_text::put_byte(out, next, after)
}

// `refused`, then the number and the position of a refusal: at most 50 bytes.
pub fn put_refused(out: &mut [u8], at: usize, why: Refusal) -> usize
    requires { at + 50 ≤ length out.old }
    ensures text { Put at (refused_line (number_of why) (position_of why)) result out.old out.new }
    ensures most { result ≤ at + 50 }
{
    let told = refusal::number_of(why);
    let first = circuits_text::put_bytes(out, at, b"refused ");
    let second = put_number(out, first, told.0, SPACE);
    put_number(out, second, told.1, NEWLINE)
}

// `table`, then the width, its node count, its completed depth and 1 or 0 for saturated: at most 90 bytes.
pub fn put_table_line(out: &mut [u8], at: usize, width: u32, row: WidthTable) -> usize
    requires { at + 90 ≤ length out.old }
    ensures text { Put at (table_line width row.count row.depth row.saturated) result out.old out.new }
    ensures most { result ≤ at + 90 }
{
    let first = circuits_text::put_bytes(out, at, b"table ");
    let second = put_number(out, first, width as u64, SPACE);
    let third = put_number(out, second, row.count as u64, SPACE);
    let fourth = put_number(out, third, row.depth as u64, SPACE);
    put_number(out, fourth, circuits_text::digit(row.saturated), NEWLINE)
}

// A node's number, its parent and its code: at most 33 bytes, where 43 are left.
fn put_node(out: &mut [u8], at: usize, node: u32, parent: u32, code: u32) -> usize
    requires { at + 43 ≤ length out.old }
    ensures text { Put at (node_line node parent code) result out.old out.new }
    ensures most { result ≤ at + 33 }
{
    let first = put_number(out, at, node as u64, SPACE);
    let second = put_number(out, first, parent as u64, SPACE);
    put_number(out, second, code as u64, NEWLINE)
}

// The first nodes of a part of the arrays, which begins at a place: at most 33 bytes each, and 10 more are left.
pub fn put_nodes(
    start: usize,
    count: usize,
    parents: &[u32],
    codes: &[u32],
    out: &mut [u8],
    at: usize,
) -> usize
    requires count_in_bounds { (at + 33 * count + 10 ≤ length out.old) × (start ≤ 5000000) × (count ≤ 1000000) }
    requires count_in_bounds_2 { (start + count ≤ length parents.now) × (start + count ≤ length codes.now) }
    ensures text { Put at (node_lines (drop start parents.now) (drop start codes.now) count) result out.old out.new }
    ensures most { result ≤ at + 33 * count }
{
    let mut p = at;
    for i in 0..count {
        p = put_node(out, p, i as u32, parents[start + i], codes[start + i]);
    }
    p
}

// A code after a space: at most 11 bytes, where 21 are left.
fn put_code(out: &mut [u8], at: usize, code: u32) -> usize
    requires { at + 21 ≤ length out.old }
    ensures text { Put at (spaced_code code) result out.old out.new }
    ensures most { result ≤ at + 11 }
{
    let next = circuits_text::put_byte(out, at, SPACE);
    circuits_text::put_decimal(out, next, code as u64)
}

// Each code after a space: at most 11 bytes each, and 10 more are left.
pub fn put_codes(out: &mut [u8], at: usize, codes: &[u32]) -> usize
    requires { at + 11 * length codes.now + 10 ≤ length out.old }
    ensures text { Put at (spaced_codes codes.now) result out.old out.new }
    ensures most { result ≤ at + 11 * length codes.now }
{
    let mut p = at;
    for code in codes {
        p = put_code(out, p, *code);
    }
    p
}

// How many gates a list has, its T charge and its codes: at most 42 bytes and 11 for each code, and 10 more are left.
pub fn put_answer(out: &mut [u8], at: usize, codes: &[u32]) -> usize
    requires { at + 11 * length codes.now + 52 ≤ length out.old }
    ensures text { Put at (answer_line codes.now) result out.old out.new }
    ensures most { result ≤ at + 11 * length codes.now + 42 }
{
    let first = put_number(out, at, codes.len() as u64, SPACE);
    let second = circuits_text::put_decimal(out, first, circuit::t_charge(codes) as u64);
    let third = put_codes(out, second, codes);
    circuits_text::put_byte(out, third, NEWLINE)
}
