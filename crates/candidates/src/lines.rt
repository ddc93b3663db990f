// The candidates of a list of keys, a line each.
ghost use Rattle.std.specs.Prelude.{◌≡◌, true, [], ◌++◌, ◌+◌, ◌≤◌, length};
ghost use Rattle.answer.specs.Replies.{text, Answered};
ghost use Rattle.intervals.specs.Sets.{is_rooted, class_count};
ghost use Rattle.names.specs.Names.{flats, table_of};
ghost use Rattle.candidates.specs.Keys.{class_set};
ghost use Rattle.candidates.specs.Candidates.{chords, line, lines, candidates_of};
ghost use Rattle.candidates.specs.private.Classes.{set_of};

use crate::keys::Classes;
use crate::parts::Candidate;
use answer::refusal::Refusal;
use answer::text::Text;
use inference::normalize::push_suffix;
use names::table::{Names, class_name};

// Twelve lines of at most 33 bytes, and what a suffix wants free behind the last name.
const ROOM: usize = 448;

// A line that is put behind others: its root's name, its suffix, and its bass behind a slash.
fn push_line(written: &mut Text<ROOM>, names: Names, candidate: Candidate)
    requires rooted { is_rooted candidate.set ≡ true }
    requires room { length written.old + 80 ≤ ROOM }
    ensures { written.new ≡ written.old ++ line (table_of names) candidate }
{
    written.push(class_name(names, candidate.root));
    push_suffix(written, candidate.set);
    if let Some(bass) = candidate.bass {
        written.push_byte(b'/');
        written.push(class_name(names, bass));
    }
    written.push_byte(b'\n');
}

// The candidates of the classes of a list, in their order: the first has no bass, and is the bass of the others.
fn push_lines(written: &mut Text<ROOM>, names: Names, classes: &Classes)
    requires { written.old ≡ [] }
    ensures { written.new ≡ lines (table_of names) (chords (set_of classes.now) classes.now) }
{
    let mut bass = None;
    for &class in classes.as_slice() {
        let root = u32::from(class);
        push_line(written, names, classes.chord(bass, root));
        bass = bass.or(Some(root));
    }
}

// The candidates of a list of keys, a line each, with the names that are asked for.
pub fn candidates_in(names: Names, keys: &[u8], out: &mut [u8]) -> Result<usize, Refusal>
    ensures { Answered (text (candidates_of (table_of names) keys.now)) out.old result out.new }
{
    if keys.is_empty() {
        // Here, since the memory of a text has to be cleared first.
        return Ok(0);
    }
    let mut written = Text::new();
    push_lines(&mut written, names, &Classes::of(keys));
    written.give(out)
}

// The candidates with the flat names, which are those of the Rust. It stays a function of its own: `hemotusap_candidates` promises it.
pub fn candidates(keys: &[u8], out: &mut [u8]) -> Result<usize, Refusal>
    ensures { Answered (text (candidates_of flats keys.now)) out.old result out.new }
{
    candidates_in(Names::Flats, keys, out)
}

// How many candidates a list of keys has: the classes of its set.
pub fn candidate_count(keys: &[u8]) -> u32
    ensures { result ≡ class_count (class_set keys.now) }
{
    Classes::of(keys).set().count_ones()
}
