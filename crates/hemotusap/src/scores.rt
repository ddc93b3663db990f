// Scores for the host: the `harmony` element of MusicXML.
ghost use Rattle.musicxml.specs.Replies.{flats, harmony_reply};
ghost use Rattle.host.specs.Numbers.{bass_from};
ghost use Rattle.hemotusap.specs.Host.{HostAnswered};

use crate::outputs::written;
use host::numbers::bass_from;
use musicxml::harmony::harmony;

pub fn hemotusap_harmony(root: u32, bass: u32, set: u32, out: &mut [u8]) -> i64
    ensures { HostAnswered (harmony_reply flats root (bass_from bass) set) out.old result out.new }
{
    written(harmony(root, bass_from(bass), set, out))
}
