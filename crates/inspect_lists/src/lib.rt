// The word `list` of `inspect`: the matrix and the fingerprint of a list, or its refusal. The line is read before
// anything is put, so that its many ways out are short to prove.
#![tactic(auto)]

ghost use Rattle.std.specs.Prelude.{◌+◌, ◌*◌, ◌≤◌, length};

use circuits_text::{NEWLINE, SPACE};
use cyclotomic::Coefficient;

// Each coefficient after a space: at most 12 bytes each.
fn put_coefficients(coefficients: &[Coefficient], out: &mut [u8], at: usize) -> usize
    requires { at + 12 * length coefficients.now ≤ length out.old }
    ensures { result ≤ at + 12 * length coefficients.now }
{
    let mut p = at;
    for x in coefficients {
        let next = circuits_text::put_byte(out, p, SPACE);
        p = circuits_text::put_signed(out, next, i32::from(*x));
    }
    p
}

// A matrix's line: at most 49190 bytes.
fn put_matrix(
    width: u32,
    exponent: u16,
    coefficients: &[Coefficient],
    out: &mut [u8],
    at: usize,
) -> usize
    requires { (at + 49190 ≤ length out.old) × (length coefficients.now ≤ 4096) }
    ensures { result ≤ at + 49190 }
{
    let fingerprint = inspect_room::fingerprint_of(width, exponent, coefficients);
    let first = circuits_text::put_decimal(out, at, exponent as u64);
    let second = circuits_text::put_byte(out, first, SPACE);
    let third = circuits_text::put_hex(out, second, fingerprint);
    let fourth = put_coefficients(coefficients, out, third);
    circuits_text::put_byte(out, fourth, NEWLINE)
}

// The matrix of a list, or its refusal.
fn put_list(width: u32, codes: &[u32], out: &mut [u8], at: usize) -> usize
    requires { at + 49190 ≤ length out.old }
    ensures { result ≤ at + 49190 }
{
    let mut space = inspect_room::coefficient_space();
    let n = circuits_answers::coefficient_count(width);
    match murm::library_circuit_matrix(width, codes, &mut space[..n]) {
        Ok(k) => put_matrix(width, k, &space[..n], out, at),
        Err(r) => circuits_lines::put_refused(out, at, r),
    }
}

// What follows the word `list` and its space.
pub fn put_list_line(rest: &[u8], out: &mut [u8], at: usize) -> usize
    requires { at + 49190 ≤ length out.old }
    ensures { result ≤ at + 49190 }
{
    let mut numbers = [0u32; 258];
    match circuits_input::read_query(rest, &mut numbers) {
        Ok((width, end)) => put_list(width, &numbers[2..end], out, at),
        Err(r) => circuits_lines::put_refused(out, at, r),
    }
}
