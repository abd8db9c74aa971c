// Words of 64 bits: products and rotations as the fingerprint's streams use them, and a coefficient as a word. std has
// no product that wraps, so it is made of halves here, once; sums that wrap and rotations are std's.
#![tactic(auto)]

ghost use Rattle.std.specs.Prelude.{◌≡◌};
ghost use Rattle.words.specs.Words.{word_product, rotated, word};

use coefficients::Coefficient;

// The product modulo 2^64, from halves of 32 bits.
pub fn wrapping_mul(a: u64, b: u64) -> u64
    ensures { result ≡ word_product a b }
{
    let low = a % 0x1_0000_0000;
    let high = a / 0x1_0000_0000;
    let other_low = b % 0x1_0000_0000;
    let other_high = b / 0x1_0000_0000;
    let cross = std::num::wrapping_add_u64(low * other_high, high * other_low);
    std::num::wrapping_add_u64(low * other_low, cross << 32)
}

// The bits moved up by as many places; those that pass bit 63 come in again at bit 0.
pub fn rotate_left(a: u64, places: u32) -> u64
    ensures { result ≡ rotated places a }
{
    a.rotate_left(places)
}

// A coefficient's 64 bits, its sign extended.
pub fn sign_extended(x: Coefficient) -> u64
    ensures { result ≡ word x }
{
    (x as i64).cast_unsigned()
}
