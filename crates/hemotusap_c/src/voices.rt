// Voicings, as C calls them.
ghost use Rattle.voicings.specs.Range.{lowest_key, highest_key};
ghost use Rattle.voicings.specs.Voicing.{voicing_reply};
ghost use Rattle.hemotusap.specs.Host.{chord_from, HostAnswered};

use hemotusap::voices;

#[unsafe(no_mangle)]
pub extern "C" fn hemotusap_voicing_within(
    root: u32,
    bass: u32,
    lowest: u32,
    highest: u32,
    classes: &[u8],
    intervals: &[u8],
    lead: u32,
    out: &mut [u8],
) -> i64
    ensures { HostAnswered (voicing_reply (chord_from root bass lowest highest lead) classes.now intervals.now) out.old result out.new }
{
    voices::hemotusap_voicing_within(root, bass, lowest, highest, classes, intervals, lead, out)
}

#[unsafe(no_mangle)]
pub extern "C" fn hemotusap_voicing(
    root: u32,
    bass: u32,
    classes: &[u8],
    intervals: &[u8],
    lead: u32,
    out: &mut [u8],
) -> i64
    ensures { HostAnswered (voicing_reply (chord_from root bass lowest_key highest_key lead) classes.now intervals.now) out.old result out.new }
{
    voices::hemotusap_voicing(root, bass, classes, intervals, lead, out)
}
