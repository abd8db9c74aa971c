// One entry of each of two matrices, mixed into its own matrix's streams. Apart from pair_prints, since its eight reads
// and eight steps take more time to prove than all else of the fingerprints, and each edit of the loop over the entries
// would have them proved again.
#![tactic(auto)]

ghost use Rattle.std.specs.Prelude.{◌≡◌};
ghost use Rattle.place_turns.specs.Eights.{OfEight, read_at};
ghost use Rattle.exact.specs.Fingerprint.{mix_all, four_words};
ghost use Rattle.prints.specs.Prints.{streams};

use cyclotomic::Coefficient;
use place_turns::TurnPlaces;
use prints::Streams;

// The streams of two matrices.
#[derive(Clone, Copy)]
pub struct TwoStreams {
    pub left: Streams,
    pub right: Streams,
}

// An entry of each of two matrices is mixed in, turned: four of its eight coefficients are read, at the places of its
// matrix's turn. The words go in turns, one of the left matrix and one of the right: in this order a build takes less
// time (docs/SPEED.md).
pub fn mix_eights(
    s: Streams,
    t: Streams,
    x: &[Coefficient; 8],
    y: &[Coefficient; 8],
    u: TurnPlaces,
    v: TurnPlaces,
) -> TwoStreams
    requires { OfEight u × OfEight v }
    ensures left { streams result.left ≡ mix_all (streams s) (four_words (read_at x.now u)) }
    ensures right { streams result.right ≡ mix_all (streams t) (four_words (read_at y.now v)) }
{
    let i = u.a;
    let j = u.b;
    let k = u.c;
    let l = u.d;
    let e = v.a;
    let f = v.b;
    let g = v.c;
    let h = v.d;
    let left_a = s.mix(words::sign_extended(x[i]));
    let right_a = t.mix(words::sign_extended(y[e]));
    let left_b = left_a.mix(words::sign_extended(x[j]));
    let right_b = right_a.mix(words::sign_extended(y[f]));
    let left_c = left_b.mix(words::sign_extended(x[k]));
    let right_c = right_b.mix(words::sign_extended(y[g]));
    TwoStreams {
        left: left_c.mix(words::sign_extended(x[l])),
        right: right_c.mix(words::sign_extended(y[h])),
    }
}
