// What the program `circuits` reads: the limits on line one, and the list on each later line (SPECIFICATION 10.1 to
// 10.4). What is read is numbers or a refusal, with no table and no output in reach: a function has a way out for each
// broken form, and each is short to prove. specs/Allowed says the same inputs a second time, of the bytes alone.
#![tactic(auto)]

ghost use Rattle.std.specs.Prelude.{◌≡◌, length};
ghost use Rattle.circuits_input.specs.Input.{ended, line_one, is_query};
ghost use Rattle.circuits_input.specs.Told.{told_line_one, Requested, Questioned};

use circuit::GateSet;
use circuits_text::NEWLINE;
use murm_config::MurmConfig;
use refusal::Refusal;

// How many bytes an input has at most.
const INPUT_MOST: usize = 16384;

// How many numbers line one has.
const LIMITS: usize = 4;

// How many codes a later line has at most.
const CODES_MOST: u32 = 256;

// Line one, given without its newline: its four limits.
pub fn read_line_one(line: &[u8]) -> Result<MurmConfig, Refusal>
    ensures { told_line_one result ≡ line_one (ended line.now) }
{
    let mut numbers = [0; LIMITS];
    let n = circuits_text::numbers(line, &mut numbers).ok_or(Refusal::BrokenLine)?;
    if n != LIMITS {
        return Err(Refusal::BrokenLine);
    }
    Ok(MurmConfig {
        max_qubits: numbers[0],
        max_gates: numbers[1],
        max_entries_per_qubit: numbers[2],
        basis: GateSet(numbers[3]),
    })
}

// The whole input: a table of these limits is wanted, and the later lines begin at a place.
pub fn read_input(input: &[u8]) -> Result<(MurmConfig, usize), Refusal>
    ensures { Requested input.now result }
{
    if INPUT_MOST < input.len() {
        return Err(Refusal::LongInput);
    }
    let e = circuits_text::find(input, 0, NEWLINE);
    if input.len() <= e {
        return Err(Refusal::BrokenLine);
    }
    let config = read_line_one(&input[..e])?;
    Ok((config, e + 1))
}

// Whether numbers are a width, a count up to 256, and that many codes.
fn is_query(numbers: &[u32]) -> bool
    ensures { result ≡ is_query numbers.now }
{
    if numbers.len() < 2 {
        return false;
    }
    if CODES_MOST < numbers[1] {
        return false;
    }
    numbers.len() == numbers[1] as usize + 2
}

// A later line, given without its newline: a list at a width is asked, and its codes end at a place among the numbers.
// The line's numbers are put into the lent places, as many as the longest such line has.
pub fn read_query(line: &[u8], numbers: &mut [u32]) -> Result<(u32, usize), Refusal>
    requires { length numbers.old ≡ 258 }
    ensures { Questioned line.now numbers.new result }
{
    let n = circuits_text::numbers(line, numbers).ok_or(Refusal::BrokenLine)?;
    if !is_query(&numbers[..n]) {
        return Err(Refusal::BrokenLine);
    }
    Ok((numbers[0], n))
}
