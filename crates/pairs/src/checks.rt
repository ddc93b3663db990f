// Whether the pairs of a chord can be its tones.
ghost use Rattle.std.specs.Prelude.{◌≡◌};
ghost use Rattle.pool.specs.Pool.{tones_of};
ghost use Rattle.pairs.specs.Checks.{pairs_checked};

use answer::refusal::Refusal;
use pool::pool::{MOST, Pairs};

const LAST_NOTE: u8 = 11;

const LAST_INTERVAL: u8 = 22;

// The pairs that are used: too many are refused before a bad one. Of those the first that is bad is, with its position; in one pair the
// note is looked at before the interval.
pub fn check_pairs(pairs: Pairs) -> Result<(), Refusal>
    ensures { result ≡ pairs_checked (tones_of pairs.entry.classes.now pairs.entry.intervals.now) }
{
    if pairs.used() > MOST {
        return Err(Refusal::TooManyPairs);
    }
    for (place, (&class, &interval)) in pairs.classes.iter().zip(pairs.intervals).enumerate() {
        if class > LAST_NOTE {
            return Err(Refusal::BadPairClass(place));
        }
        if interval > LAST_INTERVAL {
            return Err(Refusal::BadPairInterval(place));
        }
    }
    Ok(())
}
