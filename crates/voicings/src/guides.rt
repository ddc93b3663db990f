// Guides and tensions: which tones of the pool are placed between the bass and the lead.
ghost use Rattle.std.specs.Prelude.{◌≡◌, ◌++◌, ◌≤◌, length};
ghost use Rattle.intervals.specs.Intervals.{set_of};
ghost use Rattle.voicings.specs.Guides.{holds_any, sixths, sevenths, guide_once, tension_once};
ghost use Rattle.voicings.specs.Voicing.{above_bass};

use crate::offers::{Choice, push_placed};
use crate::range::ROOM;
use answer::text::Text;
use intervals::interval::{
    AUGMENTED_FIFTH, AUGMENTED_FOURTH, DIMINISHED_FIFTH, DIMINISHED_SEVENTH, ELEVENTH, FLAT_NINTH,
    FLAT_THIRTEENTH, MAJOR_SEVENTH, MAJOR_SIXTH, MAJOR_THIRD, MINOR_SEVENTH, MINOR_THIRD, NINTH,
    PERFECT_FIFTH, PERFECT_FOURTH, SHARP_ELEVENTH, SHARP_NINTH, THIRTEENTH, UNISON,
};
use keys::bits::in_set;
use keys::nearest::Span;
use leads::lead::Led;
use pool::pool::Tone;

const GUIDES: u32 = MINOR_THIRD
    | MAJOR_THIRD
    | PERFECT_FOURTH
    | AUGMENTED_FOURTH
    | DIMINISHED_FIFTH
    | AUGMENTED_FIFTH
    | DIMINISHED_SEVENTH
    | MINOR_SEVENTH;

const TENSIONS: u32 = FLAT_NINTH
    | NINTH
    | SHARP_NINTH
    | ELEVENTH
    | SHARP_ELEVENTH
    | FLAT_THIRTEENTH
    | THIRTEENTH;

const SIXTHS: u32 = MAJOR_SIXTH | DIMINISHED_SEVENTH;

// Pools of fewer tones than these are small, and very small: a fifth and the root keep a voicing from being too sparse.
const SMALL: usize = 6;

const VERY_SMALL: usize = 3;

// Which sixths and sevenths are present in a pool: a sixth or a diminished seventh, and a minor seventh.
#[derive(Clone, Copy)]
struct Present {
    sixth: bool,
    seventh: bool,
}

impl Present {
    // Both in one pass over the pool.
    fn of(tones: &[Tone]) -> Present
        ensures sixth { result.sixth ≡ holds_any sixths tones.now }
        ensures seventh { result.seventh ≡ holds_any sevenths tones.now }
    {
        let mut sixth = false;
        let mut seventh = false;
        for tone in tones {
            sixth |= in_set(SIXTHS, tone.interval);
            seventh |= in_set(MINOR_SEVENTH, tone.interval);
        }
        Present { sixth, seventh }
    }

    // Of which interval the first tone is a guide too: a sixth, or a major seventh, stays clear of the other sevenths.
    fn guide_once(self) -> u32
        ensures { result ≡ set_of (guide_once self.sixth self.seventh) }
    {
        match (self.sixth, self.seventh) {
            (false, _) => MAJOR_SEVENTH,
            (true, true) => 0,
            (true, false) => MAJOR_SIXTH,
        }
    }

    // Of which intervals the first tone is a tension too: what a small pool wants, and the sixth or seventh that is no guide.
    fn tension_once(self, count: usize) -> u32
        ensures { result ≡ set_of (tension_once self.sixth self.seventh count) }
    {
        let fifths = u32::from(count < SMALL) * (PERFECT_FIFTH + DIMINISHED_FIFTH);
        let root = u32::from(count < VERY_SMALL) * UNISON;
        let clear_of_minor = u32::from(self.sixth & self.seventh) * MAJOR_SIXTH;
        let clear_of_sixth = u32::from(self.sixth & !self.seventh) * MAJOR_SEVENTH;
        fifths + root + clear_of_minor + clear_of_sixth
    }
}

// Adds what stands above the bass: guides, lowest first; tensions below the lead, highest first; the lead.
pub(crate) fn push_above(keys: &mut Text<ROOM>, led: &Led, span: Span)
    requires { length keys.old ≤ 2 }
    ensures { keys.new ≡ keys.old ++ above_bass span.lowest span.limit led.now.key led.now.left.tones }
{
    let lead = led.key;
    let tones = led.left.tones();
    let present = Present::of(tones);
    let guides = Choice {
        whole: GUIDES,
        once: present.guide_once(),
    };
    push_placed(keys, tones, guides, 0, span);
    let tensions = Choice {
        whole: TENSIONS,
        once: present.tension_once(tones.len()),
    };
    let below = Span {
        lowest: span.lowest,
        limit: lead,
    };
    push_placed(keys, tones, tensions, lead, below);
    keys.push_byte(lead);
}
