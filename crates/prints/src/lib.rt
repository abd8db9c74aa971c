// The fingerprint of a matrix (SPECIFICATION 5.2), `unitary_fingerprint` in matrix.rs of the original: width, exponent
// and entries are mixed into two streams. Entries are turned by the phase as they are read, so that no matrix is
// copied. pair_prints works two matrices together, by the streams of this crate.
#![tactic(auto)]

ghost use Rattle.std.specs.Prelude.{◌≡◌, ◌*◌, ◌^◌, ◌≤◌, length};
ghost use Rattle.cyclotomic.specs.Zomega.{turn};
ghost use Rattle.exact.specs.Places.{entry, read, held};
ghost use Rattle.exact.proofs.Words.{AllSmall};
ghost use Rattle.exact.specs.Fingerprint.{start, mix, mix_all, fold, four_words, words_of, fingerprint};
ghost use Rattle.prints.specs.Prints.{SmallTo, streams};

use cyclotomic::{Coefficient, Cyclotomic};

// The two streams of the fingerprint (SPECIFICATION 5.2).
#[derive(Clone, Copy)]
pub struct Streams {
    pub first: u64,
    pub second: u64,
}

impl Streams {
    pub fn mix(self, word: u64) -> Streams
        ensures { streams result ≡ mix (streams self) word }
    {
        let first = words::wrapping_mul(self.first ^ word, 0x0000_0100_0000_01b3);
        let shifted = std::num::wrapping_add_u64(word, 0x517c_c1b7_2722_0a95);
        let second = words::wrapping_mul(
            words::rotate_left(self.second ^ shifted, 27),
            0x94d0_49bb_1331_11eb,
        );
        Streams { first, second }
    }

    fn mix_entry(self, z: Cyclotomic) -> Streams
        ensures { streams result ≡ mix_all (streams self) (four_words z) }
    {
        let a = self.mix(words::sign_extended(z.a));
        let b = a.mix(words::sign_extended(z.b));
        let c = b.mix(words::sign_extended(z.c));
        c.mix(words::sign_extended(z.d))
    }

    pub fn fold(self) -> u64
        ensures { result ≡ fold (streams self) }
    {
        let one = self.first ^ words::rotate_left(self.second, 32);
        let two = words::wrapping_mul(one ^ (one >> 30), 0xbf58_476d_1ce4_e5b9);
        let three = words::wrapping_mul(two ^ (two >> 27), 0x94d0_49bb_1331_11eb);
        three ^ (three >> 31)
    }
}

// The entries, each turned by omega^power, are mixed in.
fn mix_entries(m: &[Coefficient], size: usize, power: u8, s: Streams) -> Streams
    requires size_in_bounds { 4 * size ≤ length m.now }
    requires small_to { SmallTo m.now size }
    ensures { streams result ≡ mix_all (streams s) (words_of size (λ i. turn power (entry m.now i))) }
{
    let mut t = s;
    for e in 0..size {
        t = t.mix_entry(places::get(m, e).times_omega(power));
    }
    t
}

// The streams after the width and the exponent.
pub fn head(n: usize, k: u16) -> Streams
    ensures { streams result ≡ mix (mix start n) k }
{
    let start = Streams {
        first: 0xcbf2_9ce4_8422_2325,
        second: 0x9e37_79b9_7f4a_7c15,
    };
    start.mix(n as u64).mix(k as u64)
}

// The fingerprint of the matrix of width n over sqrt(2)^k.
pub fn unitary_fingerprint(m: &[Coefficient], n: usize, k: u16) -> u64
    requires n_bound { n ≤ 5 }
    requires n_in_bounds { 4 * (2 ^ n * 2 ^ n) ≤ length m.now }
    requires all_small { AllSmall n (read n m.now) }
    ensures { result ≡ fingerprint n (held n k m.now) }
{
    let power = phases::least_power(phases::pivot(m, n));
    mix_entries(m, places::area(n), power, head(n, k)).fold()
}
