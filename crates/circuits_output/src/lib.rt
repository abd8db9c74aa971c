// The output of the program `circuits`, made in a lent array of bytes: the table of line one, then a line for each
// later line (SPECIFICATION 10.5, 10.6, 10.10). Here only what is common to all inputs: room, the input read, the
// build; circuits_built puts what the build came to.
#![tactic(auto)]

ghost use Rattle.std.specs.Prelude.{◌≡◌, length};
ghost use Rattle.tables.specs.Checks.{arrays};
ghost use Rattle.circuits_built.specs.Built.{room_for};
ghost use Rattle.circuits_output.specs.Output.{told_printed, run, program_of};

// As many bytes as any output takes, where that many parents have places (SPECIFICATION 10.10).
#[tactic(auto, unfolding(circuits_built::specs::Built::room_for))]
fn room(places: usize) -> usize
    ensures { result ≡ room_for places }
{
    33 * places.min(5000000) + 3066000
}

// The program's output for an input, with three arrays lent. The text is put into the first of the lent bytes, and
// later ones keep what they held; its length is answered. Lent bytes that are too few are told by none, and nothing is
// changed.
pub fn circuits(
    input: &[u8],
    fingerprints: &mut [u64],
    parents: &mut [u32],
    codes: &mut [u32],
    out: &mut [u8],
) -> Option<usize>
    ensures { run (told_printed result) out.new (arrays fingerprints.new parents.new codes.new)
        ≡ program_of input.now (arrays fingerprints.old parents.old codes.old) out.old }
{
    if out.len() < room(parents.len()) {
        return None;
    }
    match circuits_input::read_input(input) {
        Ok((config, from)) => {
            let built = murm::build(config, fingerprints, parents, codes);
            Some(circuits_built::put_built(
                built,
                fingerprints,
                parents,
                codes,
                &input[from..],
                out,
            ))
        }
        Err(r) => Some(circuits_lines::put_refused(out, 0, r)),
    }
}
