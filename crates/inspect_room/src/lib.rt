// What the words of `inspect` share: room in the output, places for a matrix, where a part of an array ends, and how
// nodes are looked up. Each group of words stands in a crate of its own over this one, so that a change of a word has
// only that word's crate and the program proved again.
#![tactic(auto)]

ghost use Rattle.std.specs.Prelude.{◌≡◌, ◌≤◌, IfOk, length};

use cyclotomic::Coefficient;
use index::LookupBy;
use std::io;

// The fingerprint of a matrix; 0 where it is refused.
pub fn fingerprint_of(width: u32, exponent: u16, coefficients: &[Coefficient]) -> u64 {
    murm::library_fingerprint(width, exponent, coefficients).unwrap_or(0)
}

// Places for the largest matrix, and one more.
pub fn coefficient_space() -> [Coefficient; 4097]
    ensures { 4097 ≡ length result }
{
    [0; 4097]
}

// Writes what is there once less than a line's room is left, and answers where the next line goes, or the error of the
// write. The lent bytes are only read.
pub fn make_room(rt: &impl Print, out: &[u8], filled: usize) -> io::Result<usize>
    requires { filled ≤ length out.now }
    ensures { IfOk result (λ n. n ≤ 16346) }
{
    if filled <= 16346 {
        return Ok(filled);
    }
    rt.write_all(&out[..filled])?;
    Ok(0)
}

// Where a part of an array ends; 0 if some of it lies past the places that there are.
pub fn part_end(start: usize, count: usize, places: usize) -> usize
    ensures { result ≤ places }
{
    match start.checked_add(count) {
        Some(end) if end <= places => end,
        _ => 0,
    }
}

// Of two numbers that may be any.
pub fn product(a: u32, b: u32) -> usize {
    a as usize * b as usize
}

// The arrays of a table, lent to be read.
#[derive(Clone, Copy)]
pub struct Arrays<'a> {
    pub fingerprints: &'a [u64],
    pub parents: &'a [u32],
    pub codes: &'a [u32],
}

// How nodes are looked up, and how many places each part of the index has.
#[derive(Clone, Copy)]
pub struct Lookup {
    pub by: LookupBy,
    pub size: u32,
}

// Where the parts of so many widths end.
pub fn index_end(widths: u32, size: u32, places: usize) -> usize
    ensures { result ≤ places }
{
    part_end(0, product(widths, size), places)
}

// Whether an index of so many widths has more places than there are. The scan has none, and neither have widths that no
// table has: a build refuses those by its own checks.
pub fn too_large(lookup: Lookup, widths: u32, places: usize) -> bool {
    let by = lookup.by;
    matches!(by, LookupBy::Index)
        && (1..=5).contains(&widths)
        && places < product(widths, lookup.size)
}
