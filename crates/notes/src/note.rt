// Notes, their moves and their text, as the Rust's `chord/note.rs` has them.
ghost use Rattle.std.specs.Prelude.{◌≡◌, true, cond, ◌<◌, ◌≤◌, ◌^◌, pos, ◌-ℤ◌};
ghost use Rattle.answer.specs.Replies.{Answered};
ghost use Rattle.answer.specs.Words.{packed};
ghost use Rattle.notes.specs.Notes.{count_of, note_of, is_note, natural, semitone, spelled, get_note, semitone_answer, get_note_answer, transpose_answer};
ghost use Rattle.notes.specs.NoteText.{letter_name, signs, note_name, note_reply};
ghost use Rattle.notes.specs.private.Heights.{height_of, behind_letter};
ghost use Rattle.notes.specs.private.Known.{known_answer};

use answer::refusal::Refusal;
use answer::text::Text;
use std::marker::Model;

// Letters are 0 to 6: C D E F G A B. An accidental is none, or so many sharps; flats are negative.
#[derive(Clone, Copy, PartialEq, Eq, Debug)]
pub struct Note {
    pub letter: u32,
    pub accidental: Option<i32>,
}

// The height of no accidental, and one that no count has.
const NATURAL: u32 = 6;

// A number and no Option, so that one comparison tells a note.
const NO_HEIGHT: u32 = 13;

// The height of a count: how far it is above six flats, 0 to 12.
fn count_height(count: i32) -> u32
    ensures { result ≡ height_of count }
{
    if count < -6 {
        return NO_HEIGHT;
    }
    if count > 6 {
        return NO_HEIGHT;
    }
    (count + 6) as u32
}

fn height(accidental: Option<i32>) -> u32
    ensures { result ≡ height_of (count_of accidental) }
{
    match accidental {
        None => NATURAL,
        Some(count) => count_height(count),
    }
}

// The note of a letter and a height.
fn at_height(letter: u32, height: u32) -> Note
    requires { height < 13 }
    ensures { result ≡ note_of letter (pos height -ℤ pos 6) }
{
    Note::new(letter, height as i32 - 6)
}

// A letter is a number here too, as it is in `Note`: a type beside that would say it twice.
fn natural_semitone(letter: u32) -> u32
    requires { letter < 7 }
    ensures { (result ≡ natural letter) × (result < 12) }
{
    match letter {
        0 => 0,
        1 => 2,
        2 => 4,
        3 => 5,
        4 => 7,
        5 => 9,
        _ => 11,
    }
}

fn is_note(note: Note) -> bool
    ensures { result ≡ is_note note }
{
    let letter = note.letter;
    let accidental = note.accidental;
    (letter < 7) & (height(accidental) < NO_HEIGHT)
}

// The note on a letter that sounds a pitch. The difference of the two, an octave up, is 1 to 23.
fn spell(letter: u32, pitch: u32) -> Note
    requires { (letter < 7) × (pitch < 12) }
    ensures { result ≡ spelled letter pitch }
{
    let above = pitch + 12 - natural_semitone(letter);
    if above > 18 {
        return at_height(letter, above - 18);
    }
    if above < 6 {
        return at_height(letter, above + 6);
    }
    at_height(letter, above - 6)
}

// The text of an accidental, as the word of a note is without its letter: that one's byte is 0.
#[tactic(auto, unfolding(answer::specs::Words::bytes, answer::specs::Words::low, answer::specs::Words::packed, crate::specs::NoteText::signs, crate::specs::private::Heights::behind_letter))]
fn behind_letter(height: u32) -> u64
    requires { height < 13 }
    ensures { (result ≡ behind_letter height) × (result < 2 ^ 60) }
{
    match height {
        0 => 0x0762626262626200, // bbbbbb
        1 => 0x0600626262626200, // bbbbb
        2 => 0x0500006262626200, // bbbb
        3 => 0x0400000062626200, // bbb
        4 => 0x0300000000626200, // bb
        5 => 0x0200000000006200, // b
        6 => 0x0100000000000000,
        7 => 0x0200000000002300, // #
        8 => 0x0200000000007800, // x
        9 => 0x0300000000782300, // #x
        10 => 0x0300000000787800, // xx
        11 => 0x0400000078782300, // #xx
        12 => 0x0400000078787800, // xxx
        _ => 0,
    }
}

// A letter's byte: A is the sixth of them.
fn letter_byte(letter: u32) -> u64
    requires { letter < 7 }
    ensures { (result ≡ letter_name letter) × (result < 256) }
{
    ((letter + 2) % 7 + 65) as u64
}

// A note that is one. Clauses see the note.
#[derive(Clone, Copy)]
struct Known {
    note: Note,
}

impl Model for Known {
    ghost use Rattle.std.specs.Prelude.{◌≡◌, true};
    ghost use Rattle.notes.specs.Notes.{is_note};
    ghost use Rattle.notes.specs.declared.note.Note.{Note};

    ghost Value = { Note };

    ghost view = { λ k. k.note };

    ghost invariant = { λ k. is_note k.note ≡ true };

    ghost inverse = { λ note. record { note = note } };
}

impl Known {
    fn of(note: Note) -> Result<Known, Refusal>
        ensures { result ≡ known_answer note }
    {
        if !is_note(note) {
            return Err(Refusal::BadNote);
        }
        Ok(Known { note })
    }

    // The semitone of a note: a height is six more than its count.
    fn pitch(self) -> u32
        ensures { (result ≡ semitone self) × (result < 12) }
    {
        let note = self.note;
        (natural_semitone(note.letter) + height(note.accidental) + 6) % 12
    }

    fn moved(self, semitones: u32, degree: u32) -> Note
        requires { (semitones ≤ 24) × (0 < degree) × (degree ≤ 14) }
        ensures { result ≡ get_note self semitones degree }
    {
        let letter = self.note.letter;
        let goal = (self.pitch() + semitones) % 12;
        spell((letter + (degree - 1)) % 7, goal)
    }

    // Its text as a word.
    fn word(self) -> u64
        ensures { result ≡ packed (note_name signs self) }
    {
        let note = self.note;
        letter_byte(note.letter) + behind_letter(height(note.accidental))
    }
}

impl Note {
    // The note of a letter and a count; a 0 handed in is none.
    pub fn new(letter: u32, count: i32) -> Note
        ensures { result ≡ note_of letter count }
    {
        if count == 0 {
            return Note {
                letter,
                accidental: None,
            };
        }
        Note {
            letter,
            accidental: Some(count),
        }
    }

    pub fn to_semitone(self) -> Result<u32, Refusal>
        ensures { result ≡ semitone_answer self }
    {
        Ok(Known::of(self)?.pitch())
    }

    pub fn get_note(self, semitones: u32, degree: u32) -> Result<Note, Refusal>
        ensures { result ≡ get_note_answer self semitones degree }
    {
        let note = Known::of(self)?;
        if semitones > 24 {
            return Err(Refusal::BadMove);
        }
        if degree == 0 {
            return Err(Refusal::BadMove);
        }
        if degree > 14 {
            return Err(Refusal::BadMove);
        }
        Ok(note.moved(semitones, degree))
    }

    // `note`, moved as this one to `to`.
    pub fn transpose(self, note: Note, to: Note) -> Result<Note, Refusal>
        ensures { result ≡ transpose_answer self note to }
    {
        let from = Known::of(self)?;
        let note = Known::of(note)?;
        let to = Known::of(to)?;
        let target = to.note.letter;
        let source = from.note.letter;
        let semitones = (to.pitch() + 12 - from.pitch()) % 12;
        let steps = (target + 7 - source) % 7;
        Ok(note.moved(semitones, steps + 1))
    }

    // Its text as a word; of what is no note, nothing.
    pub fn to_word(self) -> u64
        ensures { result ≡ cond (is_note self) (packed (note_name signs self)) 0 }
    {
        let Ok(note) = Known::of(self) else {
            return 0;
        };
        note.word()
    }

    pub fn text(self, out: &mut [u8]) -> Result<usize, Refusal>
        ensures { Answered (note_reply signs self) out.old result out.new }
    {
        let note = Known::of(self)?;
        let mut text = Text::<8>::new();
        text.push(note.word());
        text.give(out)
    }
}
