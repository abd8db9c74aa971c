// Sums and differences of any two entries: the value, or none where a coefficient of it passes the limit. H, which has
// tested all its pairs before it stores one, takes `+` and `-` of the ring; these are for a caller that has not.
#![tactic(auto)]

ghost use Rattle.std.specs.Prelude.{◌≡◌};
ghost use Rattle.cyclotomic.specs.Zomega.{mk, addω, subω};
ghost use Rattle.cyclotomic.specs.Told.{checked};
ghost use Rattle.checked_sums.specs.Sums.{told_checked};

use coefficients::Wide;
use cyclotomic::Cyclotomic;

// The element of four numbers, or none where one of them passes the limit.
#[tactic(auto, unfolding(cyclotomic::specs::Zomega::fits, cyclotomic::specs::Told::checked))]
fn narrowed(a: Wide, b: Wide, c: Wide, d: Wide) -> Option<Cyclotomic>
    ensures { told_checked result ≡ checked (mk a b c d) }
{
    let fits = coefficients::in_limit(a)
        && coefficients::in_limit(b)
        && coefficients::in_limit(c)
        && coefficients::in_limit(d);
    if !fits {
        return None;
    }
    Some(Cyclotomic {
        a: coefficients::narrow_coefficient(a),
        b: coefficients::narrow_coefficient(b),
        c: coefficients::narrow_coefficient(c),
        d: coefficients::narrow_coefficient(d),
    })
}

// The sum, unless a coefficient of it passes the limit: the ring's sum of any two elements.
pub fn checked_add(x: Cyclotomic, y: Cyclotomic) -> Option<Cyclotomic>
    ensures { told_checked result ≡ checked (addω x y) }
{
    narrowed(
        coefficients::plus(x.a, y.a),
        coefficients::plus(x.b, y.b),
        coefficients::plus(x.c, y.c),
        coefficients::plus(x.d, y.d),
    )
}

// The difference, likewise. Two functions: one that is told which of the two to form would be no plainer.
pub fn checked_sub(x: Cyclotomic, y: Cyclotomic) -> Option<Cyclotomic>
    ensures { told_checked result ≡ checked (subω x y) }
{
    narrowed(
        coefficients::minus(x.a, y.a),
        coefficients::minus(x.b, y.b),
        coefficients::minus(x.c, y.c),
        coefficients::minus(x.d, y.d),
    )
}
