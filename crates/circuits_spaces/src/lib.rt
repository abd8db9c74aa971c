// The arrays of the program `circuits`: for the input, and for the nodes of a table (SPECIFICATION 10.1, 10.5). How
// long they are decides what is read and what is refused, and no contract of the program can say what it reads; so each
// says its length by the name that the definitions have for it.
#![tactic(auto)]

ghost use Rattle.std.specs.Prelude.{◌≡◌, ◌+◌, length};
ghost use Rattle.circuits_input.specs.Input.{input_most};
ghost use Rattle.circuits_output.specs.Output.{lent_places};

// The longest input, and one byte more, by which a longer one is seen (SPECIFICATION 10.1).
pub fn input_space() -> [u8; 16385]
    ensures { input_most + 1 ≡ length result }
{
    [0; 16385]
}

// Places for the fingerprints of a table.
pub fn fingerprint_space() -> [u64; 2048]
    ensures { result ≡ lent_places }
{
    [0u64; 2048]
}

// Places for the parents or the codes.
pub fn node_space() -> [u32; 2048]
    ensures { result ≡ lent_places }
{
    [0; 2048]
}
