// Lines of numbers as bytes: numbers are read from a line's words, and written as decimal, signed decimal and
// hexadecimal digits. What a number and a line are: SPECIFICATION 10.2. It knows nothing of gates and tables, so that
// the program `circuits` and the test programs read and write by the same functions, and what is written can be read
// back (proofs/Back).
#![tactic(auto)]

ghost use Rattle.std.specs.Prelude.{[], ◌∷◌, ◌≡◌, ◌+◌, ◌<◌, ◌≤◌, nat_abs, length, drop};
ghost use Rattle.circuits_text.specs.Reading.{before, same_bytes, word_of, told_word, told_line, ReadInto};
ghost use Rattle.circuits_text.specs.Writing.{digit_of, decimal, signed, hex, Put};
ghost use Rattle.circuits_text.specs.Writing.{glyph as glyphOf};

pub const SPACE: u8 = 32;

pub const NEWLINE: u8 = 10;

// No number below 2^32 has more digits, but for zeros before it.
const MOST_DIGITS: usize = 10;

// The place of the first byte c from at on; the length where there is none.
pub fn find(s: &[u8], at: usize, c: u8) -> usize
    requires { at ≤ length s.now }
    ensures found { result ≡ at + length (before c (drop at s.now)) }
    ensures inside { (at ≤ result) × (result ≤ length s.now) }
{
    match s[at..].iter().position(|b| *b == c) {
        Some(n) => at + n,
        None => s.len(),
    }
}

// Whether two words are the same.
pub fn same_bytes(a: &[u8], b: &[u8]) -> bool
    ensures { result ≡ same_bytes a.now b.now }
{
    a == b
}

// The number that a word writes; none where the word is anything else.
pub fn number(word: &[u8]) -> Option<u32>
    ensures { told_word result ≡ word_of word.now }
{
    if word.is_empty() {
        return None;
    }
    if MOST_DIGITS < word.len() {
        return None;
    }
    let mut v: u64 = 0;
    for b in word {
        if !b.is_ascii_digit() {
            return None;
        }
        v = v * 10 + u64::from(*b - b'0');
    }
    u32::try_from(v).ok()
}

// Reads the numbers of a line, given without its newline, into the lent list, from its first place on, and answers how
// many they are; none where a word is no number or a place lacks: then the list has the numbers before the first other
// word, as far as there are places.
pub fn numbers(line: &[u8], list: &mut [u32]) -> Option<usize>
    ensures { ReadInto line.now list.old list.new (told_line result) }
{
    let mut p = 0;
    for k in 0..list.len() {
        let e = find(line, p, SPACE);
        list[k] = number(&line[p..e])?;
        if line.len() <= e {
            return Some(k + 1);
        }
        p = e + 1;
    }
    None
}

// Puts a byte at a place, and answers the place after it.
pub fn put_byte(out: &mut [u8], at: usize, b: u8) -> usize
    requires { at < length out.old }
    ensures { Put at (b ∷ []) result out.old out.new }
{
    out[at] = b;
    at + 1
}

// Puts bytes from a place on, and answers the place after them.
pub fn put_bytes(out: &mut [u8], at: usize, bytes: &[u8]) -> usize
    requires { at + length bytes.now ≤ length out.old }
    ensures { Put at bytes.now result out.old out.new }
{
    let next = at + bytes.len();
    out[at..next].copy_from_slice(bytes);
    next
}

// 0 or 1.
pub fn digit(b: bool) -> u64
    ensures { result ≡ digit_of b }
{
    u64::from(b)
}

// The byte of a digit.
fn glyph(d: u64) -> u8
    requires { d < 16 }
    ensures { result ≡ glyphOf d }
{
    if d < 10 {
        return 48 + d as u8;
    }
    87 + d as u8
}

// Puts the decimal digits of a number from a place on, and answers the place after them.
fn put_digits(out: &mut [u8], at: usize, n: u64) -> usize
    requires { at + length (decimal n) ≤ length out.old }
    ensures { Put at (decimal n) result out.old out.new }
{
    if n < 10 {
        return put_byte(out, at, glyph(n));
    }
    let next = put_digits(out, at, n / 10);
    put_byte(out, next, glyph(n % 10))
}

// Puts the decimal digits of a number from a place on, where 20 places are left, as many as any number takes, and
// answers the place after them.
pub fn put_decimal(out: &mut [u8], at: usize, n: u64) -> usize
    requires { at + 20 ≤ length out.old }
    ensures written { Put at (decimal n) result out.old out.new }
    ensures most { result ≤ at + 20 }
{
    put_digits(out, at, n)
}

// Puts a signed number where 11 places are left, and answers the place after it.
pub fn put_signed(out: &mut [u8], at: usize, x: i32) -> usize
    requires { at + 11 ≤ length out.old }
    ensures written { Put at (signed x) result out.old out.new }
    ensures most { result ≤ at + 11 }
{
    let size = u64::from(x.unsigned_abs());
    if x < 0 {
        let next = put_byte(out, at, b'-');
        return put_digits(out, next, size);
    }
    put_digits(out, at, size)
}

// Puts a 64-bit word as sixteen hexadecimal digits, and answers the place after them.
pub fn put_hex(out: &mut [u8], at: usize, n: u64) -> usize
    requires { at + 16 ≤ length out.old }
    ensures written { Put at (hex n) result out.old out.new }
    ensures long { result ≡ at + 16 }
{
    let mut rest = n;
    for i in (0..16).rev() {
        out[at + i] = glyph(rest % 16);
        rest /= 16;
    }
    at + 16
}
