// The quality that a rooted set shows in its suffix: that of the set with a third.
ghost use Rattle.std.specs.Prelude.{◌≡◌, ◌<◌};
ghost use Rattle.rules.specs.Parts.{with_third, suffix_quality};
ghost use Rattle.descriptors.specs.Descriptors.{shown_answer};

use crate::classes::{CLASS_3, CLASS_4};
use answer::refusal::Refusal;
use intervals::set::Rooted;
use qualities::quality::{ChordQuality, quality};

pub fn shown(set: u32) -> Result<ChordQuality, Refusal>
    ensures { result ≡ shown_answer set }
{
    Ok(shown_quality(Rooted::new(set)?))
}

pub(crate) fn shown_quality(set: Rooted) -> ChordQuality
    ensures { result ≡ suffix_quality set }
{
    quality(with_third(set)).unwrap()
}

// If neither third is among the intervals, class 4 is put in: class 3 is a minor third, unless class 4 is there.
fn with_third(set: Rooted) -> u32
    ensures { (result ≡ with_third set) × (result < 4096) }
{
    let set = set.set();
    if set & (CLASS_3 | CLASS_4) == 0 {
        return set | CLASS_4;
    }
    set
}
