// Sets of pitch classes: class k is the bit worth 2^k.
ghost use Rattle.std.specs.Prelude.{◌≡◌, true};
ghost use Rattle.intervals.specs.Sets.{is_rooted, rooted_answer};

use answer::refusal::Refusal;
use std::marker::Model;

pub const LAST_CLASS: u32 = 11;

pub const LAST_SET: u32 = 4095;

// Whether a number is a set with class 0 in it.
pub fn is_rooted(set: u32) -> bool
    ensures { result ≡ is_rooted set }
{
    (set <= LAST_SET) & (set % 2 == 1)
}

// A number that is such a set. Clauses see the number.
#[derive(Clone, Copy)]
pub struct Rooted {
    set: u32,
}

impl Model for Rooted {
    ghost use Rattle.std.specs.Prelude.{◌≡◌, ℕ, true};
    ghost use Rattle.intervals.specs.Sets.{is_rooted};

    ghost Value = { ℕ };

    ghost view = { λ r. r.set };

    ghost invariant = { λ r. is_rooted r.set ≡ true };

    ghost inverse = { λ set. record { set = set } };
}

impl Rooted {
    pub fn new(set: u32) -> Result<Rooted, Refusal>
        ensures { result ≡ rooted_answer set }
    {
        if !is_rooted(set) {
            return Err(Refusal::NotASet);
        }
        Ok(Rooted { set })
    }

    pub fn set(self) -> u32
        ensures { (result ≡ self) × (is_rooted self ≡ true) }
    {
        self.set
    }
}
