// Intervals and their degrees, as the Rust's `chord/interval.rs` has them: one table, a row for each interval.
ghost use Rattle.std.specs.Prelude.{◌≡◌};
ghost use Rattle.answer.specs.Words.{packed};
ghost use Rattle.intervals.specs.private.Rows.{Tells};
ghost use Rattle.intervals.specs.Intervals.{numbered, number_of, semitones_of, degree_of, to_degree_of, notation_of, numeric_of};

#[derive(Clone, Copy, PartialEq, Eq, Debug)]
pub enum Interval {
    Unison,
    MinorSecond,
    MajorSecond,
    MinorThird,
    MajorThird,
    PerfectFourth,
    AugmentedFourth,
    DiminishedFifth,
    PerfectFifth,
    AugmentedFifth,
    MinorSixth,
    MajorSixth,
    DiminishedSeventh,
    MinorSeventh,
    MajorSeventh,
    Octave,
    FlatNinth,
    Ninth,
    SharpNinth,
    Eleventh,
    SharpEleventh,
    FlatThirteenth,
    Thirteenth,
}

#[derive(Clone, Copy, PartialEq, Eq, Debug)]
pub enum IntDegree {
    Root,
    Second,
    Third,
    Fourth,
    Fifth,
    Sixth,
    Seventh,
    Ninth,
    Eleventh,
    Thirteenth,
}

// In a set of intervals, a number, each has the bit of its number: those that some rule names.
pub const UNISON: u32 = 1 << 0;

pub const MINOR_THIRD: u32 = 1 << 3;

pub const MAJOR_THIRD: u32 = 1 << 4;

pub const PERFECT_FOURTH: u32 = 1 << 5;

pub const AUGMENTED_FOURTH: u32 = 1 << 6;

pub const DIMINISHED_FIFTH: u32 = 1 << 7;

pub const PERFECT_FIFTH: u32 = 1 << 8;

pub const AUGMENTED_FIFTH: u32 = 1 << 9;

pub const MINOR_SIXTH: u32 = 1 << 10;

pub const MAJOR_SIXTH: u32 = 1 << 11;

pub const DIMINISHED_SEVENTH: u32 = 1 << 12;

pub const MINOR_SEVENTH: u32 = 1 << 13;

pub const MAJOR_SEVENTH: u32 = 1 << 14;

pub const FLAT_NINTH: u32 = 1 << 16;

pub const NINTH: u32 = 1 << 17;

pub const SHARP_NINTH: u32 = 1 << 18;

pub const ELEVENTH: u32 = 1 << 19;

pub const SHARP_ELEVENTH: u32 = 1 << 20;

pub const FLAT_THIRTEENTH: u32 = 1 << 21;

pub const THIRTEENTH: u32 = 1 << 22;

// Short, so that a row of the table is a line.
type D = IntDegree;

// What the table says of an interval: its number, its semitones above the root, its degree in a chord (`From<Interval>`: b5
// is a fourth), the degree of its natural form (`to_degree`: b5 is a fifth), and how a chord writes it, as a word.
#[derive(Clone, Copy)]
struct About(u32, u32, IntDegree, IntDegree, u64);

impl Interval {
    // No `TryFrom`: it would need an error, and every caller wants an Option. The interval that a number names: 0 to 22, in the order above.
    #[tactic(auto, using(crate::proofs::Rows::past), unfolding(crate::specs::Intervals::intervals, crate::specs::Intervals::nth, crate::specs::Intervals::numbered))]
    pub fn from_number(number: u32) -> Option<Interval>
        ensures { result ≡ numbered number }
    {
        match number {
            0 => Some(Interval::Unison),
            1 => Some(Interval::MinorSecond),
            2 => Some(Interval::MajorSecond),
            3 => Some(Interval::MinorThird),
            4 => Some(Interval::MajorThird),
            5 => Some(Interval::PerfectFourth),
            6 => Some(Interval::AugmentedFourth),
            7 => Some(Interval::DiminishedFifth),
            8 => Some(Interval::PerfectFifth),
            9 => Some(Interval::AugmentedFifth),
            10 => Some(Interval::MinorSixth),
            11 => Some(Interval::MajorSixth),
            12 => Some(Interval::DiminishedSeventh),
            13 => Some(Interval::MinorSeventh),
            14 => Some(Interval::MajorSeventh),
            15 => Some(Interval::Octave),
            16 => Some(Interval::FlatNinth),
            17 => Some(Interval::Ninth),
            18 => Some(Interval::SharpNinth),
            19 => Some(Interval::Eleventh),
            20 => Some(Interval::SharpEleventh),
            21 => Some(Interval::FlatThirteenth),
            22 => Some(Interval::Thirteenth),
            _ => None,
        }
    }

    #[tactic(auto, unfolding(answer::specs::Words::bytes, answer::specs::Words::low, answer::specs::Words::packed))]
    fn about(self) -> About
        ensures { Tells self result }
    {
        match self {
            Self::Unison => About(0, 0, D::Root, D::Root, 0x100000000000031), // 1
            Self::MinorSecond => About(1, 1, D::Second, D::Second, 0x200000000003262), // b2
            Self::MajorSecond => About(2, 2, D::Second, D::Second, 0x100000000000032), // 2
            Self::MinorThird => About(3, 3, D::Third, D::Third, 0x200000000003362), // b3
            Self::MajorThird => About(4, 4, D::Third, D::Third, 0x100000000000033), // 3
            Self::PerfectFourth => About(5, 5, D::Fourth, D::Fourth, 0x100000000000034), // 4
            Self::AugmentedFourth => About(6, 6, D::Fourth, D::Fourth, 0x200000000003423), // #4
            Self::DiminishedFifth => About(7, 6, D::Fourth, D::Fifth, 0x200000000003562), // b5
            Self::PerfectFifth => About(8, 7, D::Fifth, D::Fifth, 0x100000000000035), // 5
            Self::AugmentedFifth => About(9, 8, D::Fifth, D::Fifth, 0x200000000003523), // #5
            Self::MinorSixth => About(10, 8, D::Sixth, D::Sixth, 0x200000000003662), // b6
            Self::MajorSixth => About(11, 9, D::Sixth, D::Sixth, 0x100000000000036), // 6
            Self::DiminishedSeventh => About(12, 9, D::Seventh, D::Seventh, 0x300000000376262), // bb7
            Self::MinorSeventh => About(13, 10, D::Seventh, D::Seventh, 0x100000000000037), // 7
            Self::MajorSeventh => About(14, 11, D::Seventh, D::Seventh, 0x30000000037614d), // Ma7
            Self::Octave => About(15, 12, D::Root, D::Root, 0x100000000000038), // 8
            Self::FlatNinth => About(16, 13, D::Ninth, D::Ninth, 0x200000000003962), // b9
            Self::Ninth => About(17, 14, D::Ninth, D::Ninth, 0x100000000000039), // 9
            Self::SharpNinth => About(18, 15, D::Ninth, D::Ninth, 0x200000000003923), // #9
            Self::Eleventh => About(19, 17, D::Eleventh, D::Eleventh, 0x200000000003131), // 11
            Self::SharpEleventh => About(20, 18, D::Eleventh, D::Eleventh, 0x300000000313123), // #11
            Self::FlatThirteenth => About(21, 20, D::Thirteenth, D::Thirteenth, 0x300000000333162), // b13
            Self::Thirteenth => About(22, 21, D::Thirteenth, D::Thirteenth, 0x200000000003331), // 13
        }
    }

    // Columns of the table, and no `From`: an interval has several numbers.
    pub fn number(self) -> u32
        ensures { result ≡ number_of self }
    {
        self.about().0
    }

    pub fn st(self) -> u32
        ensures { result ≡ semitones_of self }
    {
        self.about().1
    }

    pub fn degree(self) -> IntDegree
        ensures { result ≡ degree_of self }
    {
        self.about().2
    }

    pub fn to_degree(self) -> IntDegree
        ensures { result ≡ to_degree_of self }
    {
        self.about().3
    }

    pub fn to_chord_notation(self) -> u64
        ensures { result ≡ packed (notation_of self) }
    {
        self.about().4
    }
}

impl IntDegree {
    pub fn numeric(self) -> u32
        ensures { result ≡ numeric_of self }
    {
        match self {
            IntDegree::Root => 1,
            IntDegree::Second => 2,
            IntDegree::Third => 3,
            IntDegree::Fourth => 4,
            IntDegree::Fifth => 5,
            IntDegree::Sixth => 6,
            IntDegree::Seventh => 7,
            IntDegree::Ninth => 9,
            IntDegree::Eleventh => 11,
            IntDegree::Thirteenth => 13,
        }
    }
}
