// Why an operation is refused: a case for each number of SPECIFICATION 9.1. A new number is a case here, a line in
// `number_of`, a line in specs/Told.antt, a line of `some` in proofs/Numbers.antt and two lines in proofs/number_of.
// Callers count on two digits and no more, so that a further number moves none of them.
#![tactic(auto)]

ghost use Rattle.std.specs.Prelude.{◌≡◌, ◌≤◌};
ghost use Rattle.refusal.specs.Told.{number_of, position_of};

#[derive(Clone, Copy)]
pub enum Refusal {
    WidthLimit,
    NoEntries,
    Basis,
    TooLarge,
    ArrayTooShort,
    WidthTooLarge,
    NotValid(usize),
    DoesNotFit(usize),
    LengthNotExact,
    OutOfRange,
    NotLowest,
    ListTooShort,
    BadTable,
    BrokenLine,
    LongInput,
    NoSuchNode,
    BadIndex,
}

// A refusal's number and its position, which is 0 where there is none.
#[derive(Clone, Copy)]
pub struct Numbered(pub u64, pub u64);

pub fn number_of(refusal: Refusal) -> Numbered
    ensures number { result.0 ≡ number_of refusal }
    ensures position { result.1 ≡ position_of refusal }
    ensures most { result.0 ≤ 99 }
{
    match refusal {
        Refusal::WidthLimit => Numbered(1, 0),
        Refusal::NoEntries => Numbered(2, 0),
        Refusal::Basis => Numbered(3, 0),
        Refusal::TooLarge => Numbered(4, 0),
        Refusal::ArrayTooShort => Numbered(5, 0),
        Refusal::WidthTooLarge => Numbered(6, 0),
        Refusal::NotValid(i) => Numbered(7, i as u64),
        Refusal::DoesNotFit(i) => Numbered(8, i as u64),
        Refusal::LengthNotExact => Numbered(9, 0),
        Refusal::OutOfRange => Numbered(10, 0),
        Refusal::NotLowest => Numbered(11, 0),
        Refusal::ListTooShort => Numbered(12, 0),
        Refusal::BadTable => Numbered(13, 0),
        Refusal::BrokenLine => Numbered(14, 0),
        Refusal::LongInput => Numbered(15, 0),
        Refusal::NoSuchNode => Numbered(16, 0),
        Refusal::BadIndex => Numbered(17, 0),
    }
}
