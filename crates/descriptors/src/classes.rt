// Classes become intervals, as in the Rust's `inference/mod.rs`: at once, then 3, 6 and 9, and last 8. That an interval is
// present is read off the classes: a major third is class 4, a perfect fifth class 7, a minor seventh class 10.
ghost use Rattle.std.specs.Prelude.{◌≡◌, ◌<◌, ◌%◌};
ghost use Rattle.intervals.specs.Intervals.{set_of};
ghost use Rattle.rules.specs.Classes.{at_once, of_class3, of_class6, of_class9, of_class8, intervals_of};

use intervals::interval::{
    AUGMENTED_FIFTH, DIMINISHED_FIFTH, DIMINISHED_SEVENTH, ELEVENTH, FLAT_NINTH, FLAT_THIRTEENTH,
    MAJOR_SEVENTH, MAJOR_SIXTH, MAJOR_THIRD, MINOR_SEVENTH, MINOR_SIXTH, MINOR_THIRD, NINTH,
    PERFECT_FIFTH, SHARP_ELEVENTH, SHARP_NINTH, THIRTEENTH, UNISON,
};

const CLASS_1: u32 = 1 << 1;

const CLASS_2: u32 = 1 << 2;

pub(crate) const CLASS_3: u32 = 1 << 3;

pub(crate) const CLASS_4: u32 = 1 << 4;

pub(crate) const CLASS_5: u32 = 1 << 5;

const CLASS_6: u32 = 1 << 6;

const CLASS_7: u32 = 1 << 7;

const CLASS_8: u32 = 1 << 8;

pub(crate) const CLASS_9: u32 = 1 << 9;

const CLASS_10: u32 = 1 << 10;

const CLASS_11: u32 = 1 << 11;

// How many sets there are: the classes of any number are its lowest twelve bits.
const SETS: u32 = 1 << 12;

// A set of classes.
#[derive(Clone, Copy)]
struct Classes {
    bits: u32,
    ghost small: { bits < 4096 },
}

// The intervals of a set of classes, a bit for each.
pub fn intervals(set: u32) -> u32
    ensures { result ≡ set_of (intervals_of (set % 4096)) }
{
    let classes = Classes { bits: set % SETS };
    classes.at_once()
        | classes.resolve_third()
        | classes.resolve_fourth()
        | classes.resolve_sixth()
        | classes.resolve_augmented_fifth()
}

impl Classes {
    // Each class that has one interval only.
    fn at_once(self) -> u32
        ensures { result ≡ set_of (at_once self.bits) }
    {
        let set = self.bits;
        set % 2 * UNISON
            | set / CLASS_1 % 2 * FLAT_NINTH
            | set / CLASS_2 % 2 * NINTH
            | set / CLASS_4 % 2 * MAJOR_THIRD
            | set / CLASS_5 % 2 * ELEVENTH
            | set / CLASS_7 % 2 * PERFECT_FIFTH
            | set / CLASS_10 % 2 * MINOR_SEVENTH
            | set / CLASS_11 % 2 * MAJOR_SEVENTH
    }

    // A function for each rule, as the rules have them: one for all would take its masks and name no rule.
    // 3 is #9 if a major third is present, else minor third.
    fn resolve_third(self) -> u32
        ensures { result ≡ set_of (of_class3 self.bits) }
    {
        let set = self.bits;
        if set & CLASS_3 == 0 {
            return 0;
        }
        if set & CLASS_4 == CLASS_4 {
            return SHARP_NINTH;
        }
        MINOR_THIRD
    }

    // 6 is #11 if a perfect fifth is present, else b5.
    fn resolve_fourth(self) -> u32
        ensures { result ≡ set_of (of_class6 self.bits) }
    {
        let set = self.bits;
        if set & CLASS_6 == 0 {
            return 0;
        }
        if set & CLASS_7 == CLASS_7 {
            return SHARP_ELEVENTH;
        }
        DIMINISHED_FIFTH
    }

    // 9 is 13 if a minor seventh is present, else diminished seventh if b5 and minor third are (6 without 7, 3 without 4), else
    // major sixth.
    fn resolve_sixth(self) -> u32
        ensures { result ≡ set_of (of_class9 self.bits) }
    {
        let set = self.bits;
        if set & CLASS_9 == 0 {
            return 0;
        }
        if set & CLASS_10 == CLASS_10 {
            return THIRTEENTH;
        }
        if set & (CLASS_3 | CLASS_4 | CLASS_6 | CLASS_7) == CLASS_3 | CLASS_6 {
            return DIMINISHED_SEVENTH;
        }
        MAJOR_SIXTH
    }

    // 8 is b13 if a minor seventh, diminished seventh or major sixth is present (9 without 10 is one of the last two), else #5 if
    // a major third is, else b6.
    fn resolve_augmented_fifth(self) -> u32
        ensures { result ≡ set_of (of_class8 self.bits) }
    {
        let set = self.bits;
        if set & CLASS_8 == 0 {
            return 0;
        }
        if set & (CLASS_4 | CLASS_9 | CLASS_10) == CLASS_4 {
            return AUGMENTED_FIFTH;
        }
        if set & (CLASS_4 | CLASS_9 | CLASS_10) == 0 {
            return MINOR_SIXTH;
        }
        FLAT_THIRTEENTH
    }
}
