// A reader's bytes, read into places that are lent: so a program takes as much of its input as it has places for, and
// no allocation can fail.
#![tactic(auto)]

ghost use Rattle.std.specs.Prelude.{◌<◌, ◌≤◌, ℕ, IfOk, OnErr, length, take};
ghost use Rattle.std.specs.Io.KnownBytes.{Consumes, IsAtEnd};

use std::io;
use std::io::Read;

// Reads until the lent places are full or the reader is at its end, and answers how many bytes it read, which stand in
// the first places. Where a read fails, its error is answered, and the bytes that were read before it stand in the first
// places: none of the reader's is lost.
pub fn fill<R: Read>(reader: &mut R, places: &mut [u8]) -> io::Result<usize>
    ensures within { IfOk result (λ n. n ≤ length places.new) }
    ensures filled { IfOk result (λ n. Consumes (R.remaining reader.old) (R.remaining reader.new) (take n places.new)) }
    ensures end { IfOk result (λ n. n < length places.new → IsAtEnd (R.remaining reader.new)) }
    ensures failed { OnErr result ((n : ℕ) × Consumes (R.remaining reader.old) (R.remaining reader.new) (take n places.new)) }
{
    let mut done = 0;
    while done < places.len() {
        let n = reader.read(&mut places[done..])?;
        if n == 0 {
            return Ok(done);
        }
        done += n;
    }
    Ok(done)
}
