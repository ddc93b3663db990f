// The quality of a set of pitch classes, and what the suffix needs of each quality, as the Rust's `chord/quality.rs` has
// them. A set is a number, class k its bit worth 2^k; sets of intervals and of degrees are numbers of the same kind.
ghost use Rattle.std.specs.Prelude.{◌≡◌, ◌<◌};
ghost use Rattle.qualities.specs.Qualities.{quality_of, quality_number, quality_answer};
ghost use Rattle.qualities.specs.private.Rows.{Tells};
ghost use Rattle.qualities.specs.Masks.{own_bits, alteration_bits, extension_bits, stack_bits};

use answer::refusal::Refusal;
use intervals::interval::{
    AUGMENTED_FIFTH, DIMINISHED_FIFTH, ELEVENTH, FLAT_NINTH, FLAT_THIRTEENTH, MAJOR_SEVENTH,
    MAJOR_SIXTH, MINOR_SIXTH, NINTH, SHARP_ELEVENTH, SHARP_NINTH, THIRTEENTH,
};
use intervals::set::LAST_SET;

#[derive(Clone, Copy)]
pub enum ChordQuality {
    Maj,
    Maj6,
    Maj7,
    Dominant7,
    Mi,
    Mi6,
    Mi7,
    MiMaj7,
    Augmented,
    Diminished,
    Diminished7,
    Power,
    Bass,
}

// Sets of classes that make a quality.
const EMPTY_SET: u32 = 0;

const POW_SET: u32 = 1 << 7;

const MAJ_SET: u32 = 1 << 4;

const MAJ6_SET: u32 = 1 << 4 | 1 << 9;

const MAJ7_SET: u32 = 1 << 4 | 1 << 11;

const DOM7_SET: u32 = 1 << 4 | 1 << 10;

const SUS7_SET: u32 = 1 << 5 | 1 << 10;

const MIN_SET: u32 = 1 << 3;

const MIN6_SET: u32 = 1 << 3 | 1 << 9;

const MIN7_SET: u32 = 1 << 3 | 1 << 10;

const MIMA7_SET: u32 = 1 << 3 | 1 << 11;

const AUG_SET: u32 = 1 << 4 | 1 << 8;

const DIM_SET: u32 = 1 << 3 | 1 << 6;

const DIM7_SET: u32 = 1 << 3 | 1 << 6 | 1 << 9;

// Sets of classes that keep a quality away.
const AUG_SET_EXCLUDES: u32 = 1 << 9 | 1 << 10 | 1 << 11;

const DIM_SET_EXCLUDES: u32 = 1 << 4 | 1 << 7 | 1 << 10;

// Sets of intervals that qualities show as alterations and as extensions.
const ALTERATIONS: u32 = DIMINISHED_FIFTH
    | AUGMENTED_FIFTH
    | MINOR_SIXTH
    | FLAT_NINTH
    | SHARP_NINTH
    | SHARP_ELEVENTH
    | FLAT_THIRTEENTH;

const AUG_ALTERATIONS: u32 = DIMINISHED_FIFTH
    | FLAT_NINTH
    | SHARP_NINTH
    | SHARP_ELEVENTH
    | FLAT_THIRTEENTH;

const DIM_ALTERATIONS: u32 = AUGMENTED_FIFTH | MINOR_SIXTH | FLAT_NINTH | FLAT_THIRTEENTH;

const M6: u32 = MAJOR_SIXTH | NINTH | THIRTEENTH;

const M7: u32 = MAJOR_SEVENTH | NINTH | THIRTEENTH;

const M11_M6: u32 = MAJOR_SIXTH | NINTH | ELEVENTH | THIRTEENTH;

const M7_11: u32 = MAJOR_SEVENTH | NINTH | ELEVENTH | THIRTEENTH;

// Sets of degrees, without an 11 and with it.
const STACK: u32 = 1 << 7 | 1 << 9 | 1 << 13;

const STACK_11: u32 = 1 << 7 | 1 << 9 | 1 << 11 | 1 << 13;

// The quality of any set.
pub fn quality(set: u32) -> Result<ChordQuality, Refusal>
    ensures { result ≡ quality_answer set }
{
    if set > LAST_SET {
        return Err(Refusal::NotASet);
    }
    Ok(first_rule(set))
}

// The first rule that holds. One test of a rule: of the classes that it names, those in the set are those that it asks for.
fn first_rule(set: u32) -> ChordQuality
    requires { set < 4096 }
    ensures { result ≡ quality_of set }
{
    if u32::count_ones(set) == 1 {
        return ChordQuality::Bass;
    }
    if set & (AUG_SET | AUG_SET_EXCLUDES) == AUG_SET {
        return ChordQuality::Augmented;
    }
    if set & (DIM7_SET | DIM_SET_EXCLUDES) == DIM7_SET {
        return ChordQuality::Diminished7;
    }
    if set & (DIM_SET | DIM_SET_EXCLUDES) == DIM_SET {
        return ChordQuality::Diminished;
    }
    if set & DOM7_SET == DOM7_SET {
        return ChordQuality::Dominant7;
    }
    if set & MAJ6_SET == MAJ6_SET {
        return ChordQuality::Maj6;
    }
    if set & MAJ7_SET == MAJ7_SET {
        return ChordQuality::Maj7;
    }
    if set & MAJ_SET == MAJ_SET {
        return ChordQuality::Maj;
    }
    if set & MIMA7_SET == MIMA7_SET {
        return ChordQuality::MiMaj7;
    }
    if set & MIN7_SET == MIN7_SET {
        return ChordQuality::Mi7;
    }
    if set & MIN6_SET == MIN6_SET {
        return ChordQuality::Mi6;
    }
    if set & MIN_SET == MIN_SET {
        return ChordQuality::Mi;
    }
    if set & SUS7_SET == SUS7_SET {
        return ChordQuality::Dominant7;
    }
    if set & POW_SET == POW_SET {
        return ChordQuality::Power;
    }
    ChordQuality::Maj
}

// What the table says of a quality: its number, the classes that make it, the intervals that it shows as alterations and as
// extensions, and the degrees of which its extensions are stacked.
#[derive(Clone, Copy)]
struct About(u32, u32, u32, u32, u32);

impl ChordQuality {
    fn about(self) -> About
        ensures { Tells self result }
    {
        match self {
            Self::Maj => About(0, MAJ_SET, ALTERATIONS, M6, STACK),
            Self::Maj6 => About(1, MAJ6_SET, ALTERATIONS, M7, STACK_11),
            Self::Maj7 => About(2, MAJ7_SET, ALTERATIONS, M6, STACK),
            Self::Dominant7 => About(3, DOM7_SET, ALTERATIONS, M6, STACK),
            Self::Mi => About(4, MIN_SET, ALTERATIONS, M11_M6, STACK_11),
            Self::Mi6 => About(5, MIN6_SET, ALTERATIONS, M7_11, STACK_11),
            Self::Mi7 => About(6, MIN7_SET, ALTERATIONS, M11_M6, STACK_11),
            Self::MiMaj7 => About(7, MIMA7_SET, ALTERATIONS, M11_M6, STACK_11),
            Self::Augmented => About(8, AUG_SET, AUG_ALTERATIONS, M6, STACK),
            Self::Diminished => About(9, DIM_SET, DIM_ALTERATIONS, M7_11, STACK_11),
            Self::Diminished7 => About(10, DIM7_SET, DIM_ALTERATIONS, M7_11, STACK_11),
            Self::Power => About(11, POW_SET, EMPTY_SET, EMPTY_SET, EMPTY_SET),
            Self::Bass => About(12, EMPTY_SET, EMPTY_SET, EMPTY_SET, EMPTY_SET),
        }
    }

    // Columns of the table, and no `From`: a quality has several numbers.
    pub fn number(self) -> u32
        ensures { result ≡ quality_number self }
    {
        let about = self.about();
        about.0
    }

    // The classes that make the quality.
    pub fn self_mask(self) -> u32
        ensures { result ≡ own_bits self }
    {
        let about = self.about();
        about.1
    }

    // The intervals that the quality shows as alterations.
    pub fn alteration_mask(self) -> u32
        ensures { result ≡ alteration_bits self }
    {
        let about = self.about();
        about.2
    }

    // The intervals that it shows as extensions.
    pub fn extension_mask(self) -> u32
        ensures { result ≡ extension_bits self }
    {
        let about = self.about();
        about.3
    }

    // The degrees of which its extensions are stacked.
    pub fn extension_stack(self) -> u32
        ensures { result ≡ stack_bits self }
    {
        let about = self.about();
        about.4
    }
}
