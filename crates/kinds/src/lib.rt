// Gate kinds: `GateKind` of the original (circuit.rs), of which these seventeen are taken, and what a kind has, each in
// one function: number, operands, how many of them rise, the kind that undoes it, T charge. They are set against the
// definition (specs/Kinds) here, below all code that reads gates, so that a wrong number in one is refused in seconds.
#![tactic(auto)]

ghost use Rattle.std.specs.Prelude.{◌≡◌};
ghost use Rattle.kinds.specs.Kinds.{number, arity, sorted, of_tables, dual, kind_charge};
ghost use Rattle.kinds.specs.Told.{told_kind, told_found, Tried};

// The kinds by their numbers, which are their places in GateKind::ALL of the original; Rz, 7, and others are not taken.
// The first eleven may be in a table.
#[derive(Clone, Copy, PartialEq, Eq)]
pub enum GateKind {
    H = 0,
    X = 1,
    Z = 2,
    S = 3,
    Sdg = 4,
    T = 5,
    Tdg = 6,
    Cx = 8,
    Cz = 9,
    Ccx = 10,
    Ccz = 11,
    Y = 15,
    Sx = 16,
    Swap = 19,
    Cy = 20,
    Ch = 25,
    Cswap = 26,
}

// The kind of each number, none where the number is not taken. A list and no `match`, which would be compiled as a jump
// by the number, and each gate of a chain is asked; a static, as a const is copied to the stack at each call.
static BY_NUMBER: [Option<GateKind>; 27] = [
    Some(GateKind::H),
    Some(GateKind::X),
    Some(GateKind::Z),
    Some(GateKind::S),
    Some(GateKind::Sdg),
    Some(GateKind::T),
    Some(GateKind::Tdg),
    None, // 7, Rz
    Some(GateKind::Cx),
    Some(GateKind::Cz),
    Some(GateKind::Ccx),
    Some(GateKind::Ccz),
    None,
    None,
    None,
    Some(GateKind::Y),
    Some(GateKind::Sx),
    None,
    None,
    Some(GateKind::Swap),
    Some(GateKind::Cy),
    None,
    None,
    None,
    None,
    Some(GateKind::Ch),
    Some(GateKind::Cswap),
];

// A number that no kind has.
#[derive(Clone, Copy, PartialEq, Eq)]
pub struct UnknownKind(pub u32);

impl TryFrom<u32> for GateKind {
    type Error = UnknownKind;

    ghost try_from_gives = { Tried };

    fn try_from(number: u32) -> Result<Self, UnknownKind> {
        if number as usize >= BY_NUMBER.len() {
            return Err(UnknownKind(number));
        }
        match BY_NUMBER[number as usize] {
            Some(kind) => Ok(kind),
            None => Err(UnknownKind(number)),
        }
    }
}

impl GateKind {
    #[tactic(auto, unfolding(crate::specs::Kinds::number))]
    pub fn number(self) -> u32
        ensures { result ≡ number (told_kind self) }
    {
        self as u32
    }

    // How many operands the kind has.
    #[tactic(auto, unfolding(crate::specs::Kinds::arity))]
    pub fn operands(self) -> u32
        ensures { result ≡ arity (told_kind self) }
    {
        match self {
            GateKind::Cx | GateKind::Cz | GateKind::Swap | GateKind::Cy | GateKind::Ch => 2,
            GateKind::Ccx | GateKind::Ccz | GateKind::Cswap => 3,
            _ => 1,
        }
    }

    // How many of the kind's first operands are in rising order.
    #[tactic(auto, unfolding(crate::specs::Kinds::sorted))]
    pub fn sorted(self) -> u32
        ensures { result ≡ sorted (told_kind self) }
    {
        match self {
            GateKind::Cz | GateKind::Ccx => 2,
            GateKind::Ccz => 3,
            _ => 0,
        }
    }

    // Whether a table may have the kind: those kinds have the lowest numbers. By the number, since each gate of a chain
    // is asked.
    #[tactic(auto, using(crate::proofs::Told::tables_below))]
    pub fn is_of_tables(self) -> bool
        ensures { result ≡ of_tables (told_kind self) }
    {
        self.number() < 12
    }

    // The kind that undoes this one in a table; none where no table has this one.
    #[tactic(auto, unfolding(crate::specs::Kinds::dual))]
    pub fn dual(self) -> Option<GateKind>
        ensures { told_found result ≡ dual (told_kind self) }
    {
        match self {
            GateKind::H | GateKind::X | GateKind::Z => Some(self),
            GateKind::S => Some(GateKind::Sdg),
            GateKind::Sdg => Some(GateKind::S),
            GateKind::T => Some(GateKind::Tdg),
            GateKind::Tdg => Some(GateKind::T),
            GateKind::Cx | GateKind::Cz | GateKind::Ccx | GateKind::Ccz => Some(self),
            _ => None,
        }
    }

    // The T charge (SPECIFICATION 2.9).
    #[tactic(auto, unfolding(crate::specs::Kinds::kind_charge))]
    pub fn charge(self) -> usize
        ensures { result ≡ kind_charge (told_kind self) }
    {
        match self {
            GateKind::T | GateKind::Tdg => 1,
            GateKind::Ccx | GateKind::Ccz => 7,
            _ => 0,
        }
    }
}
