// What a line of `inspect` says of a matrix or a node; none where the line is broken. A function that reads a line has
// neither the output nor the arrays of a table, so that its many ways out are short to prove; and any word that takes a
// matrix can read it here.
#![tactic(auto)]

ghost use Rattle.std.specs.Prelude.{◌≤◌, length};
ghost use Rattle.inspect_read.specs.Counted.{read_count, asked_count, wanted_places};

use circuits_text::SPACE;
use cyclotomic::Coefficient;

// The coefficient that a word writes: a number, after a `-` or not.
fn signed(word: &[u8]) -> Option<Coefficient> {
    let value = match word {
        [b'-', digits @ ..] => -i64::from(circuits_text::number(digits)?),
        _ => i64::from(circuits_text::number(word)?),
    };
    Coefficient::try_from(value).ok()
}

// The coefficients of a line from a place on, each after a space, into the first of the lent places: how many they are.
fn read_coefficients(line: &[u8], from: usize, coefficients: &mut [Coefficient]) -> Option<usize>
    requires { from ≤ length line.now }
    ensures { read_count result ≤ length coefficients.old }
{
    let mut p = from;
    let mut k = 0;
    while p < line.len() {
        if coefficients.len() <= k {
            return None;
        }
        let first = p + 1;
        let e = circuits_text::find(line, first, SPACE);
        coefficients[k] = signed(&line[first..e])?;
        k += 1;
        p = e;
    }
    Some(k)
}

// The place after the second word of a line; 0 where it has only one.
fn second_end(line: &[u8]) -> usize
    ensures { result ≤ length line.now }
{
    let first = circuits_text::find(line, 0, SPACE);
    if line.len() <= first {
        return 0;
    }
    circuits_text::find(line, first + 1, SPACE)
}

// What follows the word `matrix` or `find` and its space: WIDTH K COEFFICIENTS.., the coefficients into the lent
// places. It answers the width, K, and how many coefficients were read.
pub fn read_matrix(rest: &[u8], coefficients: &mut [Coefficient]) -> Option<(u32, u16, usize)>
    ensures { asked_count result ≤ length coefficients.old }
{
    let second = second_end(rest);
    let mut head = [0u32; 2];
    circuits_text::numbers(&rest[..second], &mut head)?;
    let k = u16::try_from(head[1]).ok()?;
    let n = read_coefficients(rest, second, coefficients)?;
    Some((head[0], k, n))
}

// What follows the word `write` and its space, WIDTH NODE PLACES: a node whose list is wanted, its width and its number,
// and how many places are lent for the list.
pub fn read_node(rest: &[u8]) -> Option<(u32, u32, usize)>
    ensures { wanted_places result ≤ 64 }
{
    let mut numbers = [0u32; 3];
    let n = circuits_text::numbers(rest, &mut numbers)?;
    if n != 3 || 64 < numbers[2] {
        return None;
    }
    Some((numbers[0], numbers[1], numbers[2] as usize))
}
