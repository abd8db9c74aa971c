// An element of Z[omega], a + b omega + c omega^2 + d omega^3 with omega^4 = -1: an entry of a matrix, before its
// division by sqrt(2)^k. matrix.rs of the original, `Cyclotomic`. Each function says a ring operation coefficient by
// coefficient; what the machine's numbers ask of a coefficient is in `coefficients`, below.
#![tactic(auto)]

ghost use Rattle.std.specs.Prelude.{◌≡◌};
ghost use Rattle.cyclotomic.specs.Zomega.{mk, zeroω, oneω, addω, subω, turn, sqrt2, divisible, over_sqrt2, eqω, is_zero, less, fits, Small, eight_of};

pub use coefficients::{Coefficient, LIMIT, Wide, sizes_pass};
use std::ops::{Add, Sub};

#[derive(Clone, Copy, PartialEq, Eq)]
pub struct Cyclotomic {
    pub a: Coefficient,
    pub b: Coefficient,
    pub c: Coefficient,
    pub d: Coefficient,
}

// The element of four numbers within the limit, which sums and differences of coefficients are formed to.
fn narrowed(a: Wide, b: Wide, c: Wide, d: Wide) -> Cyclotomic
    requires { Small (mk a b c d) }
    ensures { result ≡ mk a b c d }
{
    Cyclotomic {
        a: coefficients::narrow_coefficient(a),
        b: coefficients::narrow_coefficient(b),
        c: coefficients::narrow_coefficient(c),
        d: coefficients::narrow_coefficient(d),
    }
}

// The sum, where it is within the limit.
impl Add for Cyclotomic {
    type Output = Cyclotomic;

    ghost can_add = { λ x y. Small (addω x y) };

    ghost add_gives = { λ x y z. z ≡ addω x y };

    fn add(self, rhs: Cyclotomic) -> Cyclotomic {
        narrowed(
            coefficients::plus(self.a, rhs.a),
            coefficients::plus(self.b, rhs.b),
            coefficients::plus(self.c, rhs.c),
            coefficients::plus(self.d, rhs.d),
        )
    }
}

// The difference, where it is within the limit.
impl Sub for Cyclotomic {
    type Output = Cyclotomic;

    ghost can_sub = { λ x y. Small (subω x y) };

    ghost sub_gives = { λ x y z. z ≡ subω x y };

    fn sub(self, rhs: Cyclotomic) -> Cyclotomic {
        narrowed(
            coefficients::minus(self.a, rhs.a),
            coefficients::minus(self.b, rhs.b),
            coefficients::minus(self.c, rhs.c),
            coefficients::minus(self.d, rhs.d),
        )
    }
}

impl Cyclotomic {
    pub const ZERO: Cyclotomic = Cyclotomic {
        a: 0,
        b: 0,
        c: 0,
        d: 0,
    };

    pub const ONE: Cyclotomic = Cyclotomic {
        a: 1,
        b: 0,
        c: 0,
        d: 0,
    };

    // The two constants, with what they are: a constant has no contract. `is_zero` compares with 0, an identity is made
    // of 1.
    pub fn zero() -> Cyclotomic
        ensures { result ≡ zeroω }
    {
        Cyclotomic::ZERO
    }

    pub fn one() -> Cyclotomic
        ensures { result ≡ oneω }
    {
        Cyclotomic::ONE
    }

    pub fn is_zero(self) -> bool
        ensures { result ≡ is_zero self }
    {
        self == Cyclotomic::zero()
    }

    // One turn: omega times this. The paper has no other turn, so turns by powers are worked by single turns alone.
    #[tactic(auto, unfolding(crate::specs::Zomega::turn))]
    pub fn turned(self) -> Cyclotomic
        requires { Small self }
        ensures { result ≡ turn 1 self }
    {
        let a = self.a;
        let b = self.b;
        let c = self.c;
        let d = self.d;
        let minus_d = coefficients::negated(d);
        Cyclotomic {
            a: minus_d,
            b: a,
            c: b,
            d: c,
        }
    }

    // omega to the power, times this: that many single turns.
    pub fn times_omega(self, power: u8) -> Cyclotomic
        requires { Small self }
        ensures { result ≡ turn power self }
    {
        let mut z = self;
        for _ in 0..power {
            z = z.turned();
        }
        z
    }

    // The four coefficients and their negatives, among which are those of every turn of this.
    pub fn eight(self) -> [Coefficient; 8]
        requires { Small self }
        ensures { result ≡ eight_of self }
    {
        let a = self.a;
        let b = self.b;
        let c = self.c;
        let d = self.d;
        let minus_a = coefficients::negated(a);
        let minus_b = coefficients::negated(b);
        let minus_c = coefficients::negated(c);
        let minus_d = coefficients::negated(d);
        [a, b, c, d, minus_a, minus_b, minus_c, minus_d]
    }

    // Whether this is sqrt(2) times an element.
    #[tactic(auto, unfolding(crate::specs::Zomega::divisible))]
    pub fn divisible_by_sqrt_2(self) -> bool
        ensures { result ≡ divisible self }
    {
        if !coefficients::same_parity(self.a, self.c) {
            return false;
        }
        coefficients::same_parity(self.b, self.d)
    }

    // This over sqrt(2), where it is divisible. The halves never pass the limit.
    #[tactic(auto, unfolding(crate::specs::Zomega::over_sqrt2))]
    pub fn divide_by_sqrt_2(self) -> Cyclotomic
        requires { Small self }
        ensures { result ≡ over_sqrt2 self }
    {
        Cyclotomic {
            a: coefficients::halved(coefficients::minus(self.b, self.d)),
            b: coefficients::halved(coefficients::plus(self.a, self.c)),
            c: coefficients::halved(coefficients::plus(self.b, self.d)),
            d: coefficients::halved(coefficients::minus(self.c, self.a)),
        }
    }

    // Whether sqrt(2) times this is within the limit: its coefficients are b - d, a + c, b + d and c - a.
    #[tactic(auto, using(crate::proofs::Sizes::root_tests))]
    pub fn sqrt_2_fits(self) -> bool
        ensures { result ≡ fits (sqrt2 self) }
    {
        if coefficients::sizes_pass(self.a, self.c) {
            return false;
        }
        !coefficients::sizes_pass(self.b, self.d)
    }

    // sqrt(2) times this, where it is within the limit.
    #[tactic(auto, unfolding(crate::specs::Zomega::sqrt2))]
    pub fn times_sqrt_2(self) -> Cyclotomic
        requires { Small (sqrt2 self) }
        ensures { result ≡ sqrt2 self }
    {
        narrowed(
            coefficients::minus(self.b, self.d),
            coefficients::plus(self.a, self.c),
            coefficients::plus(self.b, self.d),
            coefficients::minus(self.c, self.a),
        )
    }

    // Whether this comes before the other: by a, then b, then c, then d, as signed numbers. It returns at the first pair
    // that differs: with no branch, builds at width 1 took 4 % longer. By hand and not derived, since how two
    // coefficients compare is a promise of `coefficients` (`below`), which has a must-fail edit of its own.
    #[tactic(auto, unfolding(crate::specs::Zomega::less))]
    pub fn less_than(self, rhs: Cyclotomic) -> bool
        ensures { result ≡ less self rhs }
    {
        if !coefficients::same(self.a, rhs.a) {
            return coefficients::below(self.a, rhs.a);
        }
        if !coefficients::same(self.b, rhs.b) {
            return coefficients::below(self.b, rhs.b);
        }
        if !coefficients::same(self.c, rhs.c) {
            return coefficients::below(self.c, rhs.c);
        }
        coefficients::below(self.d, rhs.d)
    }
}
