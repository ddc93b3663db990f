// The spelled tones of a rooted set: each interval through `get_note`, the names joined by one space.
ghost use Rattle.answer.specs.Replies.{Answered};
ghost use Rattle.spelling.specs.Tones.{spelled_by, tones_reply};

use answer::output::give;
use answer::refusal::Refusal;
use answer::text::Text;
use descriptors::classes::intervals;
use descriptors::members::Members;
use intervals::set::Rooted;
use names::table::class_note;

// Twelve tones of at most seven bytes, a space before each, and eight bytes more: a word is stored whole.
const ROOM: usize = 104;

// The tones of a rooted set on a root class, written to the front of `out`.
pub fn tones(root: u32, set: u32, out: &mut [u8]) -> Result<usize, Refusal>
    ensures { Answered (tones_reply spelled_by root set) out.old result out.new }
{
    let set = Rooted::new(set)?;
    let root = class_note(root)?;
    let mut row = Text::<ROOM>::new();
    for interval in Members::of(intervals(set.set())) {
        let tone = root.get_note(interval.st(), interval.to_degree().numeric())?;
        row.push_byte(b' ');
        row.push(tone.to_word());
    }
    let names = &row.as_slice()[1..];
    give(names, out)
}
