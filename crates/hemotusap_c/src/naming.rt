// Qualities and texts, as C calls them.
ghost use Rattle.std.specs.Prelude.{◌≡◌};
ghost use Rattle.notes.specs.Notes.{note_of};
ghost use Rattle.notes.specs.NoteText.{signs, note_reply};
ghost use Rattle.qualities.specs.Qualities.{quality_answer};
ghost use Rattle.host.specs.Numbers.{quality_number};
ghost use Rattle.hemotusap.specs.Host.{HostAnswered};

use hemotusap::naming;

#[unsafe(no_mangle)]
pub extern "C" fn hemotusap_quality(set: u32) -> i64
    ensures { result ≡ quality_number (quality_answer set) }
{
    naming::hemotusap_quality(set)
}

#[unsafe(no_mangle)]
pub extern "C" fn hemotusap_note_text(letter: u32, accidental: i32, out: &mut [u8]) -> i64
    ensures { HostAnswered (note_reply signs (note_of letter accidental)) out.old result out.new }
{
    naming::hemotusap_note_text(letter, accidental, out)
}
