// The voicing of a chord record: bass, guides, tensions, lead.
ghost use Rattle.std.specs.Prelude.{◌≡◌, true, ◌++◌, ◌≤◌, length};
ghost use Rattle.answer.specs.Replies.{Answered};
ghost use Rattle.intervals.specs.Bass.{is_bass};
ghost use Rattle.voicings.specs.Voicing.{bass_keys, chord_checked, voicing_reply};

use crate::guides::push_above;
use crate::range::{ROOM, is_range};
use answer::refusal::Refusal;
use answer::text::Text;
use intervals::bass::is_bass;
use intervals::set::LAST_CLASS;
use keys::nearest::Span;
use leads::lead::nearest_lead;
use pairs::checks::check_pairs;
use pool::pool::Pairs;

// A chord, but for its tones, which are pairs of a note class and an interval's number: its keys above the bass are from a lowest to a
// highest. A lead is a wish, and may be beyond them; with none the highest is wanted.
#[derive(Clone, Copy)]
pub struct Chord {
    pub root: u32,
    pub bass: Option<u32>,
    pub lowest: u32,
    pub highest: u32,
    pub lead: Option<u8>,
}

// Adds the bass and the root, or the root alone.
fn push_bass(keys: &mut Text<ROOM>, root: u32, bass: Option<u32>)
    requires classes { (root ≤ 11) × (is_bass bass ≡ true) }
    requires room { length keys.old ≤ 33 }
    ensures { keys.new ≡ keys.old ++ bass_keys root bass }
{
    match bass {
        None => keys.push_byte((root + 36) as u8),
        Some(class) => {
            keys.push_byte((class + 36) as u8);
            keys.push_byte((root + 48) as u8);
        }
    }
}

// The classes, then the range.
fn check_chord(chord: Chord) -> Result<(), Refusal>
    ensures { result ≡ chord_checked chord }
{
    if !((chord.root <= LAST_CLASS) & is_bass(chord.bass)) {
        return Err(Refusal::BadClass);
    }
    if !is_range(chord.lowest, chord.highest) {
        return Err(Refusal::BadRange);
    }
    Ok(())
}

// The voicing of a chord and its pairs, of which as many are used as the shorter range has.
pub fn voicing(chord: Chord, pairs: Pairs, out: &mut [u8]) -> Result<usize, Refusal>
    ensures { Answered (voicing_reply chord pairs.entry.classes.now pairs.entry.intervals.now) out.old result out.new }
{
    check_chord(chord)?;
    check_pairs(pairs)?;
    let highest = chord.highest as u8;
    let span = Span {
        lowest: chord.lowest as u8,
        limit: highest + 1,
    };
    let led = nearest_lead(pairs, chord.lead.unwrap_or(highest), span);
    let mut keys = Text::new();
    push_bass(&mut keys, chord.root, chord.bass);
    push_above(&mut keys, &led, span);
    keys.give(out)
}
