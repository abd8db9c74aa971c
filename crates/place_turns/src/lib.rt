// Turns by places: which four of an entry's coefficients and their negatives are those of omega to a power, times the
// entry. It is the same four for all entries, so a matrix has its turns worked once, and each entry is read at four
// places (`pair_words`).
#![tactic(auto)]

ghost use Rattle.std.specs.Prelude.{◌≡◌, ◌<◌};
ghost use Rattle.place_turns.specs.Eights.{OfEight, Opposite, OneTurn, PlacesOf};

// Where the coefficients of a turned element stand among the eight of the element itself. One of these serves all
// entries of a matrix, so that its turns are worked once and not for each entry.
#[derive(Clone, Copy)]
pub struct TurnPlaces {
    pub a: usize,
    pub b: usize,
    pub c: usize,
    pub d: usize,
}

// The place of the negative.
fn opposite(place: usize) -> usize
    requires { place < 8 }
    ensures { Opposite place result }
{
    if place < 4 {
        return place + 4;
    }
    place - 4
}

impl TurnPlaces {
    // One turn, on places: the rule of `turned` of an element.
    fn turned(self) -> TurnPlaces
        requires { OfEight self }
        ensures { OneTurn self result }
    {
        let a = self.a;
        let b = self.b;
        let c = self.c;
        let d = self.d;
        let opposite_d = opposite(d);
        TurnPlaces {
            a: opposite_d,
            b: a,
            c: b,
            d: c,
        }
    }
}

// The places of omega to the power, times an element: that many single turns of the element's own places.
pub fn turn_places(power: u8) -> TurnPlaces
    ensures { PlacesOf power result }
{
    let mut t = TurnPlaces {
        a: 0,
        b: 1,
        c: 2,
        d: 3,
    };
    for _ in 0..power {
        t = t.turned();
    }
    t
}
