// Voicings for the host.
ghost use Rattle.std.specs.Prelude.{◌≡◌};
ghost use Rattle.voicings.specs.Range.{lowest_key, highest_key};
ghost use Rattle.voicings.specs.Voicing.{voicing_reply};
ghost use Rattle.hemotusap.specs.Host.{lead_from, chord_from, HostAnswered};

use crate::outputs::written;
use host::numbers::bass_from;
use pool::pool::Pairs;
use voicings::range::{HIGHEST, LOWEST};
use voicings::voicing::{Chord, voicing};

// A lead above 255 is none.
fn lead_from(lead: u32) -> Option<u8>
    ensures { result ≡ lead_from lead }
{
    u8::try_from(lead).ok()
}

// The voicing of a chord whose keys above the bass are from a lowest to a highest.
pub fn hemotusap_voicing_within(
    root: u32,
    bass: u32,
    lowest: u32,
    highest: u32,
    classes: &[u8],
    intervals: &[u8],
    lead: u32,
    out: &mut [u8],
) -> i64
    ensures { HostAnswered (voicing_reply (chord_from root bass lowest highest lead) classes.now intervals.now) out.old result out.new }
{
    let chord = Chord {
        root,
        bass: bass_from(bass),
        lowest,
        highest,
        lead: lead_from(lead),
    };
    let pairs = Pairs { classes, intervals };
    written(voicing(chord, pairs, out))
}

// The same in the range that a host has which names none.
pub fn hemotusap_voicing(
    root: u32,
    bass: u32,
    classes: &[u8],
    intervals: &[u8],
    lead: u32,
    out: &mut [u8],
) -> i64
    ensures { HostAnswered (voicing_reply (chord_from root bass lowest_key highest_key lead) classes.now intervals.now) out.old result out.new }
{
    hemotusap_voicing_within(root, bass, LOWEST, HIGHEST, classes, intervals, lead, out)
}
