// One coefficient of an entry, between -32767 and 32767: so its negative is one too, and a sum or a difference of two
// is formed one width wider and narrowed after a test. All that the machine's signed numbers ask (ranges, casts,
// comparisons) is proved here, function by function, and the ring above speaks of integers alone.
#![tactic(auto)]

ghost use Rattle.std.specs.Prelude.{◌≡◌, ◌+◌, ◌≤◌, pos, nat_abs, neg_ℤ, ◌+ℤ◌, ◌-ℤ◌};
ghost use Rattle.std.specs.Int.Signed.{lt_z};
ghost use Rattle.coefficients.specs.Coefficients.{limit, same_parity, half, eq_z, within, sizes_pass};

// A coefficient's type, and the type in which sums are formed.
pub type Coefficient = i16;

pub type Wide = i32;

// The largest coefficient, and the negative of the least one.
pub const LIMIT: Wide = 32767;

pub fn narrow_coefficient(x: Wide) -> Coefficient
    requires { nat_abs x ≤ limit }
    ensures { result ≡ x }
{
    x as Coefficient
}

pub fn negated(x: Coefficient) -> Coefficient
    requires { nat_abs x ≤ limit }
    ensures { result ≡ neg_ℤ x }
{
    narrow_coefficient(-(x as Wide))
}

// The sum and the difference of two coefficients. Two functions: one that is told which of the two to form would be no
// plainer.
pub fn plus(x: Coefficient, y: Coefficient) -> Wide
    ensures { result ≡ x +ℤ y }
{
    (x as Wide) + (y as Wide)
}

pub fn minus(x: Coefficient, y: Coefficient) -> Wide
    ensures { result ≡ x -ℤ y }
{
    (x as Wide) - (y as Wide)
}

pub fn in_limit(x: Wide) -> bool
    ensures { result ≡ within x }
{
    -LIMIT <= x && x <= LIMIT
}

pub fn same(x: Coefficient, y: Coefficient) -> bool
    ensures { result ≡ eq_z x y }
{
    x == y
}

pub fn below(x: Coefficient, y: Coefficient) -> bool
    ensures { result ≡ lt_z x y }
{
    x < y
}

pub fn same_parity(x: Coefficient, y: Coefficient) -> bool
    ensures { result ≡ same_parity x y }
{
    plus(x, y) % 2 == 0
}

// Half of a sum or a difference of two coefficients.
pub fn halved(x: Wide) -> Coefficient
    requires { nat_abs x ≤ limit + limit }
    ensures { result ≡ half x }
{
    narrow_coefficient(x / 2)
}

// The size of a coefficient: its absolute value.
fn size(x: Coefficient) -> Wide
    ensures { result ≡ pos (nat_abs x) }
{
    (x as Wide).abs()
}

// Whether the sizes of two coefficients add up past the limit: then their sum or their difference does, and only then.
pub fn sizes_pass(x: Coefficient, y: Coefficient) -> bool
    ensures { result ≡ sizes_pass x y }
{
    size(x) + size(y) > LIMIT
}
