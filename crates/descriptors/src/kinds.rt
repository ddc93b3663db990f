// What the suffix asks of each quality: one table, a row for each.
ghost use Rattle.std.specs.Prelude.{◌≡◌};
ghost use Rattle.descriptors.specs.Kinds.{kind_of};

use qualities::quality::ChordQuality;

// A quality's word up to where its modifier stands; the word that stands there without one, if it shows one; the degree that it has of
// its own; whether it writes a `6`; whether every extension is an add.
#[derive(Clone, Copy)]
pub struct Kind(pub u64, pub Option<u64>, pub u32, pub bool, pub bool);

const NONE: u64 = 0;

const SEVEN: u64 = 0x0100000000000037; // 7

const SIX: u64 = 0x0100000000000036; // 6

const MA: u64 = 0x020000000000614d; // Ma

const MI: u64 = 0x020000000000696d; // mi

const MI6: u64 = 0x030000000036696d; // mi6

const MIMA: u64 = 0x04000000614d696d; // miMa

const PLUS: u64 = 0x010000000000002b; // +

const DIM: u64 = 0x03000000006d6964; // dim

const DIM7: u64 = 0x04000000376d6964; // dim7

// A degree's bit.
const D7: u32 = 1 << 7;

#[tactic(auto, unfolding(answer::specs::Words::bytes, answer::specs::Words::low, answer::specs::Words::packed, intervals::specs::Sets::is_in))]
pub fn kind_of(quality: ChordQuality) -> Kind
    ensures { result ≡ kind_of quality }
{
    match quality {
        ChordQuality::Maj => Kind(NONE, None, 0, false, false),
        ChordQuality::Maj6 => Kind(SIX, Some(NONE), 0, true, false),
        ChordQuality::Maj7 => Kind(MA, Some(SEVEN), D7, false, false),
        ChordQuality::Dominant7 => Kind(NONE, Some(SEVEN), D7, false, false),
        ChordQuality::Mi => Kind(MI, None, 0, false, false),
        ChordQuality::Mi6 => Kind(MI6, None, 0, true, false),
        ChordQuality::Mi7 => Kind(MI, Some(SEVEN), D7, false, false),
        ChordQuality::MiMaj7 => Kind(MIMA, Some(SEVEN), D7, false, false),
        ChordQuality::Augmented => Kind(PLUS, Some(NONE), 0, false, false),
        ChordQuality::Diminished => Kind(DIM, None, 0, false, true),
        ChordQuality::Diminished7 => Kind(DIM7, None, 0, false, true),
        ChordQuality::Power => Kind(NONE, None, 0, false, false),
        ChordQuality::Bass => Kind(NONE, None, 0, false, false),
    }
}
