// The `harmony` element of MusicXML, as C calls it.
ghost use Rattle.musicxml.specs.Replies.{flats, harmony_reply};
ghost use Rattle.host.specs.Numbers.{bass_from};
ghost use Rattle.hemotusap.specs.Host.{HostAnswered};

use hemotusap::scores;

#[unsafe(no_mangle)]
pub extern "C" fn hemotusap_harmony(root: u32, bass: u32, set: u32, out: &mut [u8]) -> i64
    ensures { HostAnswered (harmony_reply flats root (bass_from bass) set) out.old result out.new }
{
    scores::hemotusap_harmony(root, bass, set, out)
}
