// The intervals of a set, from the lowest up: a loop over them takes no turn for one that is not there.
ghost use Rattle.std.specs.Prelude.{◌≡◌, ◌%◌, ◌^◌};
ghost use Rattle.std.specs.Iterator.{YieldsFirst, item_count};
ghost use Rattle.rules.specs.Classes.{intervals_in};

use intervals::interval::Interval;
use std::marker::Model;

// How many sets of intervals there are: each interval has a bit.
const SETS: u32 = 1 << 23;

// Those that are still to come.
#[derive(Drop)]
pub struct Members {
    left: u32,
}

impl Model for Members {
    ghost use Rattle.std.specs.Prelude.{List, ◌<◌, ◌^◌};
    ghost use Rattle.intervals.specs.declared.interval.Interval.{Interval};
    ghost use Rattle.rules.specs.Classes.{intervals_in};

    ghost Value = { List Interval };

    ghost view = { λ m. intervals_in m.left };

    ghost invariant = { λ m. m.left < 2 ^ 23 };
}

impl Members {
    // Bits that are no interval's count for nothing.
    pub fn of(set: u32) -> Self
        ensures { result ≡ intervals_in (set % 2 ^ 23) }
    {
        Members { left: set % SETS }
    }
}

impl Iterator for Members {
    type Item = Interval;

    ghost next_gives = { YieldsFirst (λ m. m) };

    ghost remaining = { item_count (λ m. m) };

    fn next(&mut self) -> Option<Interval> {
        if self.left == 0 {
            return None;
        }
        let number = self.left.trailing_zeros();
        self.left -= 1 << number;
        Interval::from_number(number)
    }
}
