// Answers as numbers, and the bass that a host gives.
ghost use Rattle.std.specs.Prelude.{◌≡◌, pos};
ghost use Rattle.host.specs.Numbers.{refusal_number, quality_number, note_number, note_answer_number, bass_from, parts_number, candidate_number, names_number};

use answer::refusal::Refusal;
use candidates::parts::Candidate;
use names::table::Names;
use notes::note::Note;
use qualities::quality::ChordQuality;

// What the host gives for no bass, and below what it gets: the C interface has numbers for none.
const NO_BASS: u32 = 255;

// What it gets for none.
const BASS_OF_NONE: u32 = 15;

// Minus the refusal's number, or minus (256 × number + place); the lowest number where that is not above it.
pub fn refused(why: Refusal) -> i64
    ensures { result ≡ refusal_number why }
{
    let number = u64::from(why.number());
    let size = match why.place() {
        None => number,
        Some(place) => (256 * number).saturating_add(place as u64),
    };
    0i64.saturating_sub_unsigned(size)
}

pub fn quality_number(answer: Result<ChordQuality, Refusal>) -> i64
    ensures { result ≡ quality_number answer }
{
    answer.map_or_else(refused, |quality| i64::from(quality.number()))
}

fn note_number(note: Note) -> i64
    ensures { result ≡ note_number note }
{
    16 * i64::from(note.letter) + 6 + i64::from(note.accidental.unwrap_or(0))
}

pub fn moved(answer: Result<Note, Refusal>) -> i64
    ensures { result ≡ note_answer_number answer }
{
    answer.map_or_else(refused, note_number)
}

pub fn bass_from(bass: u32) -> Option<u32>
    ensures { result ≡ bass_from bass }
{
    (bass != NO_BASS).then_some(bass)
}

fn parts_number(candidate: Candidate) -> i64
    ensures { result ≡ pos (parts_number candidate) }
{
    let bass = candidate.bass.unwrap_or(BASS_OF_NONE);
    65536 * i64::from(bass) + 4096 * i64::from(candidate.root) + i64::from(candidate.set)
}

pub fn candidate_number(answer: Option<Candidate>) -> i64
    ensures { result ≡ candidate_number answer }
{
    answer.map_or(0, parts_number)
}

// Which listing a part is of: the C interface names them 0 and 1.
pub fn names_number(names: Names) -> i64
    ensures { result ≡ pos (names_number names) }
{
    match names {
        Names::Flats => 0,
        Names::Sharps => 1,
    }
}
