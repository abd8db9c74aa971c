// Gate sets and gate codes: `GateSet` and `LibraryGate` of the original (circuit.rs, murm.rs). A gate is its code, kind
// * 4096 + a * 256 + b * 16 + c, and every 32-bit number is decided: what is no code is not valid. What a kind has
// stands in `kinds`, the tests of operands in `operands`; here a code is taken apart and the two are asked.
#![tactic(auto)]

ghost use Rattle.std.specs.Prelude.{◌≡◌, ◌^◌, ◌<◌, eqb};
ghost use Rattle.kinds.specs.Kinds.{kind_charge};
ghost use Rattle.kinds.specs.Told.{told_kind, told_found};
ghost use Rattle.circuit.specs.Sets.{supported, base, member, subset};
ghost use Rattle.circuit.specs.Codes.{kind_number, kind_of, first, second, third, operands_fit, valid, valid_for};
ghost use Rattle.circuit.specs.Pairs.{inverse, qubits, disjoint, mask_of};
ghost use Rattle.circuit.specs.Charge.{charge};

use kinds::GateKind;

// The set of the one number q.
fn singleton(q: u32) -> u32
    requires { q < 16 }
    ensures { result ≡ 2 ^ q }
{
    1 << q
}

// A set of gate kinds: bit i is kind i.
#[derive(Clone, Copy)]
pub struct GateSet(pub u32);

impl GateSet {
    // The original's default basis: H, X, Z, S, Sdg, T, Tdg, Cx (SPECIFICATION 2.2).
    pub const BASE: GateSet = GateSet(383);

    // That basis with Cz, Ccx, Ccz: all kinds of tables.
    pub const SUPPORTED: GateSet = GateSet(3967);

    pub fn bits(self) -> u32
        ensures { result ≡ self.0 }
    {
        self.0
    }

    // Whether the kind of that number is in the set. Any number is taken and not a kind alone, as is promised: a set has
    // no bit past 31.
    pub fn contains(self, kind: u32) -> bool
        ensures { result ≡ member self.0 kind }
    {
        if kind >= 32 {
            return false;
        }
        (self.0 >> kind) % 2 == 1
    }

    pub fn is_empty(self) -> bool
        ensures { result ≡ eqb self.0 0 }
    {
        self.0 == 0
    }

    // The default basis as a value, with its number stated.
    pub fn default_base() -> GateSet
        ensures { result.0 ≡ base }
    {
        GateSet::BASE
    }

    // Whether the set has no bit outside the supported ones.
    pub fn is_supported(self) -> bool
        ensures { result ≡ subset self.0 supported }
    {
        self.is_subset(GateSet::SUPPORTED)
    }

    // Whether the set has no bit outside the other.
    pub fn is_subset(self, other: GateSet) -> bool
        ensures { result ≡ subset self.0 other.0 }
    {
        self.0 & other.0 == self.0
    }
}

// A gate by its code.
#[derive(Clone, Copy)]
pub struct LibraryGate(pub u32);

impl LibraryGate {
    // The number that the code has for its kind, whether or not it is that of a kind.
    pub fn kind(self) -> u32
        ensures { result ≡ kind_number self.0 }
    {
        self.0 / 4096
    }

    // The kind, where the code has one of the seventeen.
    pub fn gate_kind(self) -> Option<GateKind>
        ensures { told_found result ≡ kind_of self.0 }
    {
        GateKind::try_from(self.kind()).ok()
    }

    // The operands, in the order of the original's constructor.
    pub fn first(self) -> u32
        ensures { result ≡ first self.0 }
    {
        self.0 / 256 % 16
    }

    pub fn second(self) -> u32
        ensures { result ≡ second self.0 }
    {
        self.0 / 16 % 16
    }

    pub fn third(self) -> u32
        ensures { result ≡ third self.0 }
    {
        self.0 % 16
    }

    // Whether the code is valid at a width.
    #[tactic(auto, unfolding(crate::specs::Codes::valid))]
    pub fn is_valid(self, width: u32) -> bool
        ensures { result ≡ valid width self.0 }
    {
        let Some(kind) = self.gate_kind() else {
            return false;
        };
        self.is_placed(kind, width)
    }

    // Whether the operands are as the kind asks at a width. Each count of operands has an arm, compiled for this count
    // alone, and one operand stands in no order: each gate of a chain is asked.
    fn is_placed(self, kind: GateKind, width: u32) -> bool
        ensures { result ≡ operands_fit width (told_kind kind) self.0 }
    {
        let a = self.first();
        let b = self.second();
        let c = self.third();
        match kind.operands() {
            1 => operands::operands_placed(width, 1, a, b, c),
            2 => {
                operands::operands_placed(width, 2, a, b, c)
                    && operands::in_order(kind.sorted(), a, b, c)
            }
            _ => {
                operands::operands_placed(width, 3, a, b, c)
                    && operands::in_order(kind.sorted(), a, b, c)
            }
        }
    }

    // Whether the code is valid at a width, of a kind of tables, and this kind is in the basis.
    #[tactic(auto, unfolding(crate::specs::Codes::valid_for))]
    pub fn is_valid_for(self, width: u32, basis: GateSet) -> bool
        ensures { result ≡ valid_for width basis.0 self.0 }
    {
        let Some(kind) = self.gate_kind() else {
            return false;
        };
        if !basis.contains(self.kind()) {
            return false;
        }
        kind.is_of_tables() && self.is_placed(kind, width)
    }

    // Whether this gate undoes the other, one of a kind of tables.
    #[tactic(auto, unfolding(crate::specs::Pairs::inverse))]
    pub fn is_inverse_of(self, other: LibraryGate) -> bool
        ensures { result ≡ inverse self.0 other.0 }
    {
        let Some(dual) = other.gate_kind().and_then(GateKind::dual) else {
            return false;
        };
        self.kind() == dual.number() && self.0 % 4096 == other.0 % 4096
    }

    // The qubits as one set of bits: bit q is qubit q.
    pub fn qubit_mask(self) -> u32
        ensures { result ≡ mask_of (qubits self.0) }
    {
        let Some(kind) = self.gate_kind() else {
            return 0;
        };
        let a = singleton(self.first());
        let b = singleton(self.second());
        let c = singleton(self.third());
        match kind.operands() {
            1 => a,
            2 => a | b,
            _ => a | (b | c),
        }
    }

    // Whether the two share no qubit.
    pub fn is_disjoint(self, other: LibraryGate) -> bool
        ensures { result ≡ disjoint self.0 other.0 }
    {
        self.qubit_mask() & other.qubit_mask() == 0
    }

    pub fn t_charge(self) -> usize
        ensures { result ≡ kind_charge (kind_of self.0) }
    {
        self.gate_kind().map_or(0, GateKind::charge)
    }
}

// The T charge of a list of codes.
pub fn t_charge(codes: &[u32]) -> usize
    ensures { result ≡ charge codes.now }
{
    codes.iter().map(|code| LibraryGate(*code).t_charge()).sum()
}
