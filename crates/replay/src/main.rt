// A test program: prints what this library says of every gate code, pair of codes and basis (SPECIFICATION, chapter 2),
// in the form of the recording of the original. The output is compared with crates/replay/stdout, which oracle/record
// writes from the original itself; the first line is that recording's header. A write that fails ends the program with
// its error.
#![tactic(auto)]

ghost use Rattle.std.specs.Prelude.{◌≤◌, ◌<◌};

use circuit::{GateSet, LibraryGate};
use generators::MOST;
use std::{fmt, io};

fn spaced(rt: &impl Print, n: u32) -> io::Result<()> {
    print!(rt; " {n}")
}

fn flag(rt: &impl Print, yes: bool) -> io::Result<()> {
    if yes {
        print!(rt; "1")
    } else {
        print!(rt; "0")
    }
}

fn line_end(rt: &impl Print) -> io::Result<()> {
    print!(rt; "\n")
}

// `codes N` and every code that is valid at width N; the library is asked about all numbers below 114688, which is past
// the last kind.
fn codes_line(rt: &impl Print, width: u32) -> io::Result<()> {
    print!(rt; "codes")?;
    spaced(rt, width)?;
    for code in 0..114688 {
        if LibraryGate(code).is_valid(width) {
            spaced(rt, code)?;
        }
    }
    line_end(rt)
}

// `valid N K` and the validity of every code of the kind whose unused operands are 0, one step apart.
fn valid_line(rt: &impl Print, width: u32, kind: u32, step: usize) -> io::Result<()>
    requires { (kind < 27) × (0 < step) × (step ≤ 256) }
{
    print!(rt; "valid")?;
    spaced(rt, width)?;
    spaced(rt, kind)?;
    print!(rt; " ")?;
    let start = kind * 4096;
    for code in (start..start + 4096).step_by(step) {
        flag(rt, LibraryGate(code).is_valid(width))?;
    }
    line_end(rt)
}

// One used operand, two, three; no line for a number that is no kind of a list.
fn valid_kind(rt: &impl Print, width: u32, kind: u32) -> io::Result<()>
    requires { kind < 27 }
{
    match kind {
        0 | 1 | 2 | 3 | 4 | 5 | 6 | 15 | 16 => valid_line(rt, width, kind, 256),
        8 | 9 | 19 | 20 | 25 => valid_line(rt, width, kind, 16),
        10 | 11 | 26 => valid_line(rt, width, kind, 1),
        _ => Ok(()),
    }
}

fn valid_lines(rt: &impl Print, width: u32) -> io::Result<()> {
    for kind in 0..27 {
        valid_kind(rt, width, kind)?;
    }
    Ok(())
}

fn qubits_lines(rt: &impl Print, gates: &[u32]) -> io::Result<()> {
    for gate in gates {
        print!(rt; "qubits")?;
        spaced(rt, *gate)?;
        spaced(rt, LibraryGate(*gate).qubit_mask())?;
        line_end(rt)?;
    }
    Ok(())
}

// What is printed of each pair of codes: g is the inverse of h, they share no qubit, g has the lower code.
#[derive(Clone, Copy)]
enum Relation {
    Inverse,
    Disjoint,
    Lower,
}

impl Relation {
    fn holds(self, g: u32, h: u32) -> bool {
        match self {
            Relation::Inverse => LibraryGate(g).is_inverse_of(LibraryGate(h)),
            Relation::Disjoint => LibraryGate(g).is_disjoint(LibraryGate(h)),
            Relation::Lower => g < h,
        }
    }
}

impl fmt::Display for Relation {
    fn fmt<W: fmt::Write>(&self, f: &mut fmt::Formatter<W>) -> fmt::Result {
        f.write_str(match self {
            Relation::Inverse => "inverse",
            Relation::Disjoint => "disjoint",
            Relation::Lower => "lower",
        })
    }
}

fn pair_line(rt: &impl Print, relation: Relation, g: u32, gates: &[u32]) -> io::Result<()> {
    print!(rt; "{relation}")?;
    spaced(rt, g)?;
    print!(rt; " ")?;
    for h in gates {
        flag(rt, relation.holds(g, *h))?;
    }
    line_end(rt)
}

fn pair_lines(rt: &impl Print, relation: Relation, gates: &[u32]) -> io::Result<()> {
    for g in gates {
        pair_line(rt, relation, *g, gates)?;
    }
    Ok(())
}

fn listed(rt: &impl Print, gates: &[u32]) -> io::Result<()> {
    for gate in gates {
        spaced(rt, *gate)?;
    }
    Ok(())
}

fn generators_line(rt: &impl Print, width: u32, basis: u32) -> io::Result<()>
    requires { width ≤ 5 }
{
    if !GateSet(basis).is_subset(GateSet::SUPPORTED) {
        return Ok(());
    }
    print!(rt; "generators")?;
    spaced(rt, width)?;
    spaced(rt, basis)?;
    let mut gates = [0u32; MOST];
    let count = generators::library_gates(width, GateSet(basis), &mut gates);
    listed(rt, &gates[..count])?;
    line_end(rt)
}

fn generators_lines(rt: &impl Print, width: u32) -> io::Result<()>
    requires { width ≤ 5 }
{
    for basis in 1..=GateSet::SUPPORTED.bits() {
        generators_line(rt, width, basis)?;
    }
    Ok(())
}

// What is printed of each width.
#[derive(Clone, Copy)]
enum Lines {
    Codes,
    Valid,
    Generators,
}

fn width_lines(rt: &impl Print, what: Lines, width: u32) -> io::Result<()>
    requires { width ≤ 5 }
{
    match what {
        Lines::Codes => codes_line(rt, width),
        Lines::Valid => valid_lines(rt, width),
        Lines::Generators => generators_lines(rt, width),
    }
}

// The lines of each width from the first one on, up to 5.
fn each_width(rt: &impl Print, what: Lines, first: u32) -> io::Result<()> {
    for width in first..=5 {
        width_lines(rt, what, width)?;
    }
    Ok(())
}

fn main(rt: HostRuntime) -> io::Result<()> {
    println!(rt; "recorded from qqq-wisc/tzap at 63829b8f5b by oracle/record gates")?;
    each_width(&rt, Lines::Codes, 0)?;
    each_width(&rt, Lines::Valid, 0)?;
    let mut gates = [0u32; MOST];
    let count = generators::library_gates(5, GateSet::SUPPORTED, &mut gates);
    qubits_lines(&rt, &gates[..count])?;
    pair_lines(&rt, Relation::Inverse, &gates[..count])?;
    pair_lines(&rt, Relation::Disjoint, &gates[..count])?;
    pair_lines(&rt, Relation::Lower, &gates[..count])?;
    each_width(&rt, Lines::Generators, 1)
}
