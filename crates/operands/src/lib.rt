// The tests of a gate's three operands: the used ones below the width and distinct, the others 0, and the first ones in
// rising order. They know numbers alone, no kind and no code. Each count has an arm of its own, in which every
// comparison is made and none branches: so its proof is one line, and a wrong comparison is refused in seconds.
#![tactic(auto)]

ghost use Rattle.std.specs.Prelude.{◌≡◌, ◌<◌, ◌≤◌};
ghost use Rattle.operands.specs.Operands.{placed, ordered};

// Whether the first operands, as many as the count says, are below n and distinct, and the others 0.
pub fn operands_placed(n: u32, count: u32, a: u32, b: u32, c: u32) -> bool
    requires { (0 < count) × (count ≤ 3) }
    ensures { result ≡ placed n count a b c }
{
    match count {
        1 => (a < n) & ((b == 0) & (c == 0)),
        2 => ((a < n) & (b < n)) & ((a != b) & (c == 0)),
        _ => {
            let inside = (a < n) & ((b < n) & (c < n));
            let distinct = ((a != b) & (a != c)) & (b != c);
            inside & distinct
        }
    }
}

// Whether the first operands, as many as the count says, are in rising order.
pub fn in_order(count: u32, a: u32, b: u32, c: u32) -> bool
    requires { count ≤ 3 }
    ensures { result ≡ ordered count a b c }
{
    match count {
        0 | 1 => true,
        2 => a < b,
        _ => (a < b) & (b < c),
    }
}
