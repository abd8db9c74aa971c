// The program `circuits`: reads standard input, and writes what circuits_output::circuits makes of it (SPECIFICATION,
// chapter 10). No contract can say what is read or written; so all that can be said stands in circuits_output and
// circuits_spaces, and the gate runs the program on the longest input and on longer ones (tools/run-test).
#![tactic(auto)]

ghost use Rattle.std.specs.Prelude.{◌≤◌, length};
ghost use Rattle.circuits_text.specs.Writing.{Put};
ghost use Rattle.circuits_built.specs.Built.{room_for};
ghost use Rattle.circuits_output.specs.Output.{output};

use std::io;

// The program's output for an input, in the first of the lent bytes: how many they are.
fn answer(input: &[u8], out: &mut [u8]) -> usize
    requires { room_for 2048 ≤ length out.old }
    ensures { Put 0 (output input.now) result out.old out.new }
{
    let mut fingerprints = circuits_spaces::fingerprint_space();
    let mut parents = circuits_spaces::node_space();
    let mut codes = circuits_spaces::node_space();
    let made = circuits_output::circuits(input, &mut fingerprints, &mut parents, &mut codes, out);
    made.unwrap()
}

// The output is made and written.
fn write_answer(rt: &impl Print, input: &[u8], out: &mut [u8]) -> io::Result<()>
    requires { room_for 2048 ≤ length out.old }
{
    let n = answer(input, out);
    rt.write_all(&out[..n])
}

// As many bytes as any output takes. They are a local: an array that a function returns may stand on the stack three
// times.
fn with_output(rt: &impl Print, input: &[u8]) -> io::Result<()> {
    let mut out = [0u8; 3133584];
    write_answer(rt, input, &mut out)
}

fn main(rt: HostRuntime) -> io::Result<()> {
    let mut input = circuits_spaces::input_space();
    let n = input_bytes::fill(&mut rt.reader(), &mut input)?;
    with_output(&rt, &input[..n])
}
