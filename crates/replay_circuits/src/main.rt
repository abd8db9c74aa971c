// A test program: replays runs of the program `circuits`, for comparison with the original. Standard input holds runs,
// each a line `run LENGTH`, that many bytes, which are the program's input, and a newline. For each it prints a line
// `run LENGTH` and that many bytes, which are the program's output. A run of another form prints `broken` and ends; so
// does more than 1 MiB of standard input. A read or a write that fails ends the program with its error.
#![tactic(auto)]

ghost use Rattle.std.specs.Prelude.{◌≤◌, length};

use circuits_text::NEWLINE;
use std::io;

// The longest standard input, one byte more than which is read.
const MOST: usize = 1048576;

fn broken(rt: &impl Print) -> io::Result<()> {
    rt.write_all(b"broken\n")
}

// The line `run LENGTH`, in places of its own.
fn print_length(rt: &impl Print, n: usize) -> io::Result<()> {
    let mut line = [0u8; 32];
    let first = circuits_text::put_bytes(&mut line, 0, b"run ");
    let second = circuits_text::put_decimal(&mut line, first, n as u64);
    let third = circuits_text::put_byte(&mut line, second, NEWLINE);
    rt.write_all(&line[..third])
}

// An output of that many bytes. That they are within the lent ones is tested, so that the program's contract is not
// used.
fn print_output(rt: &impl Print, out: &[u8], n: usize) -> io::Result<()> {
    if out.len() < n {
        return broken(rt);
    }
    print_length(rt, n)?;
    rt.write_all(&out[..n])
}

// One run of the program. The arrays keep what the last run left there.
fn replay(
    rt: &impl Print,
    input: &[u8],
    fingerprints: &mut [u64],
    parents: &mut [u32],
    codes: &mut [u32],
    out: &mut [u8],
) -> io::Result<()> {
    match circuits_output::circuits(input, fingerprints, parents, codes, out) {
        Some(n) => print_output(rt, out, n),
        None => broken(rt),
    }
}

// The number of a line `run LENGTH`.
fn run_length(line: &[u8]) -> Option<u32> {
    circuits_text::number(line.strip_prefix(b"run ")?)
}

// The run that begins at a place, and the place after it: the same place where the run has another form.
fn replay_at(
    rt: &impl Print,
    runs: &[u8],
    at: usize,
    fingerprints: &mut [u64],
    parents: &mut [u32],
    codes: &mut [u32],
    out: &mut [u8],
) -> io::Result<usize>
    requires { at ≤ length runs.now }
{
    let e = circuits_text::find(runs, at, NEWLINE);
    if runs.len() <= e {
        return Ok(at);
    }
    let Some(n) = run_length(&runs[at..e]) else {
        return Ok(at);
    };
    let start = e + 1;
    let size = n as usize;
    if runs.len() - start <= size {
        return Ok(at);
    }
    let end = start + size;
    if runs[end] != NEWLINE {
        return Ok(at);
    }
    replay(rt, &runs[start..end], fingerprints, parents, codes, out)?;
    Ok(end + 1)
}

// Each run.
fn replay_all(
    rt: &impl Print,
    runs: &[u8],
    fingerprints: &mut [u64],
    parents: &mut [u32],
    codes: &mut [u32],
    out: &mut [u8],
) -> io::Result<()> {
    let mut at = 0;
    while at < runs.len() {
        let next = replay_at(rt, runs, at, fingerprints, parents, codes, out)?;
        if next <= at {
            return broken(rt);
        }
        at = next;
    }
    Ok(())
}

// The arrays of a table, with as many places as the program lends.
fn with_output(rt: &impl Print, runs: &[u8], out: &mut [u8]) -> io::Result<()> {
    let mut fingerprints = [0u64; 2048];
    let mut parents = [0u32; 2048];
    let mut codes = [0u32; 2048];
    replay_all(rt, runs, &mut fingerprints, &mut parents, &mut codes, out)
}

// Room for any output. It is a local, lent to a function, and so is the input: an array that a function returns may
// stand on the stack three times.
fn with_runs(rt: &impl Print, runs: &[u8]) -> io::Result<()> {
    let mut out = [0u8; 3200000];
    with_output(rt, runs, &mut out)
}

fn with_input(rt: &(impl Input + Print), input: &mut [u8]) -> io::Result<()> {
    let n = input_bytes::fill(&mut rt.reader(), input)?;
    if MOST < n {
        return broken(rt);
    }
    with_runs(rt, &input[..n])
}

fn main(rt: HostRuntime) -> io::Result<()> {
    let mut input = [0u8; 1048577];
    with_input(&rt, &mut input)
}
