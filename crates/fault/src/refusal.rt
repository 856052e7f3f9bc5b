ghost use Rattle.std.specs.Prelude.{◌≡◌};
ghost use Rattle.fault.specs.Refusals.{number_of};
ghost use Rattle.fault.specs.declared.place.BytesPlace.TheVariants.{Offset as AtOffset};

use crate::place::{BytesPlace, Offset};

// Why something was refused. `number` gives the number by which people know it.
#[derive(Clone, Copy, PartialEq)]
pub enum Refusal {
    EndsEarly = 1,
    NotShortest = 2,
    Strange = 3,
    TooShort = 4,
    Trailing = 5,
    HeadOutside = 6,
    Outside = 7,
    TestedTwice = 8,
    TwoWriters = 9,
    Clash = 10,
    Unavailable = 11,
    UnknownWork = 12,
    BrokenProgram = 13,
    LineCarrying = 14,
    NoMessage = 15,
    EmptyPlace = 16,
    UnitBusy = 17,
    LimitReached = 18,
    Stopped = 19,
}

impl Refusal {
    // The number of the refusal, 1 to 19.
    pub fn number(self) -> u8
        ensures { result ≡ number_of self }
    {
        self as u8
    }
}

// A refusal and its place, which is of the kind that the refusing layer has.
#[derive(Clone, Copy, PartialEq)]
pub struct Fault<P> {
    pub refusal: Refusal,
    pub place: P,
}

impl<P> Fault<P> {
    // The same refusal for a layer above, whose places include this layer's.
    pub fn carried<Q: From<P>>(self) -> Fault<Q>
        ensures refusal { result.refusal ≡ self.refusal }
        ensures place { Q.From.from_gives self.place result.place }
    {
        let Fault { refusal, place } = self;
        Fault {
            refusal,
            place: Q::from(place),
        }
    }
}

impl From<Offset> for BytesPlace {
    ghost from_gives = { λ p r. r ≡ AtOffset p.0 };

    fn from(p: Offset) -> BytesPlace {
        BytesPlace::Offset(p.0)
    }
}

// What the number reader refuses is refused, whole, by whoever reads bytes.
impl From<Fault<Offset>> for Fault<BytesPlace> {
    ghost from_gives = { λ f r. r ≡ record { refusal = f.refusal; place = AtOffset f.place.0 } };

    fn from(f: Fault<Offset>) -> Fault<BytesPlace> {
        f.carried()
    }
}
