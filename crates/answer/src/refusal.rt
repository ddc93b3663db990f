// Why a call is refused: the number that each reason has, and the place that some of them tell.
ghost use Rattle.std.specs.Prelude.{◌≡◌};
ghost use Rattle.answer.specs.Refusals.{told_of};

// A bad pair's place is its position among the pairs, from 0, and that of a code that is no key its position in the list.
#[derive(Clone, Copy, PartialEq, Eq, Debug)]
pub enum Refusal {
    NotASet,
    BadClass,
    TooManyPairs,
    BadPairClass(usize),
    BadPairInterval(usize),
    BadNote,
    BadMove,
    NotAKey(usize),
    BadRange,
    NoRoom,
}

impl Refusal {
    // No `From`: a refusal has a number and a place, and neither is the refusal.
    pub fn number(self) -> u32
        ensures { result ≡ (told_of self).number }
    {
        match self {
            Refusal::NotASet => 1,
            Refusal::BadClass => 2,
            Refusal::TooManyPairs => 3,
            Refusal::BadPairClass(_) => 41,
            Refusal::BadPairInterval(_) => 42,
            Refusal::BadNote => 5,
            Refusal::BadMove => 6,
            Refusal::NotAKey(_) => 11,
            Refusal::BadRange => 16,
            Refusal::NoRoom => 7,
        }
    }

    pub fn place(self) -> Option<usize>
        ensures { result ≡ (told_of self).place }
    {
        match self {
            Refusal::BadPairClass(place)
            | Refusal::BadPairInterval(place)
            | Refusal::NotAKey(place) => { Some(place) }
            _ => None,
        }
    }
}
