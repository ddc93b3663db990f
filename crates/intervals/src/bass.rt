// The bass of a chord: a class, or none where there is no slash.
ghost use Rattle.std.specs.Prelude.{◌≡◌};
ghost use Rattle.intervals.specs.Bass.{is_bass};

use crate::set::LAST_CLASS;

// Whether a bass is none, or one of the twelve classes.
pub fn is_bass(bass: Option<u32>) -> bool
    ensures { result ≡ is_bass bass }
{
    bass.map_or(true, |class| class <= LAST_CLASS)
}
