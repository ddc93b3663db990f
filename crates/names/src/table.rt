// The twelve pitch classes as notes, as the Rust's `inference/tables.rs` names them: a black key has a sharp name and a flat one.
ghost use Rattle.std.specs.Prelude.{◌≡◌};
ghost use Rattle.answer.specs.Words.{packed};
ghost use Rattle.names.specs.Names.{flats, table_of, name_of, note_in};
ghost use Rattle.names.specs.private.Rows.{Tells};

use answer::refusal::Refusal;
use notes::note::Note;

// Which name a black key has.
#[derive(Clone, Copy)]
pub enum Names {
    Flats,
    Sharps,
}

// A class's letter and accidental, and its flat and its sharp name as words: a name is not put together at each call.
#[derive(Clone, Copy)]
struct Row(u32, Option<i32>, u64, u64);

// How many classes there are.
const CLASSES: u32 = 12;

// Past the table a row of empty words, and no Option: `class_name` answers for every number.
#[tactic(auto, unfolding(answer::specs::Words::bytes, answer::specs::Words::low, answer::specs::Words::packed, notes::specs::NoteText::letter_name, notes::specs::NoteText::note_name, notes::specs::NoteText::signs, crate::specs::Names::flats, crate::specs::Names::sharps))]
fn row_of(class: u32) -> Row
    ensures { Tells class result }
{
    match class {
        0 => Row(0, None, 0x0100000000000043, 0x0100000000000043), // C
        1 => Row(1, Some(-1), 0x0200000000006244, 0x0200000000002343), // Db, C#
        2 => Row(1, None, 0x0100000000000044, 0x0100000000000044), // D
        3 => Row(2, Some(-1), 0x0200000000006245, 0x0200000000002344), // Eb, D#
        4 => Row(2, None, 0x0100000000000045, 0x0100000000000045), // E
        5 => Row(3, None, 0x0100000000000046, 0x0100000000000046), // F
        6 => Row(4, Some(-1), 0x0200000000006247, 0x0200000000002346), // Gb, F#
        7 => Row(4, None, 0x0100000000000047, 0x0100000000000047), // G
        8 => Row(5, Some(-1), 0x0200000000006241, 0x0200000000002347), // Ab, G#
        9 => Row(5, None, 0x0100000000000041, 0x0100000000000041), // A
        10 => Row(6, Some(-1), 0x0200000000006242, 0x0200000000002341), // Bb, A#
        11 => Row(6, None, 0x0100000000000042, 0x0100000000000042), // B
        _ => Row(0, None, 0, 0),
    }
}

// The name of a class as a word: the empty word for a number that is no class.
pub fn class_name(names: Names, class: u32) -> u64
    ensures { result ≡ packed (name_of (table_of names) class) }
{
    let row = row_of(class);
    match names {
        Names::Flats => row.2,
        Names::Sharps => row.3,
    }
}

// The note of a class, a black key's with a flat.
pub fn class_note(class: u32) -> Result<Note, Refusal>
    ensures { result ≡ note_in flats class }
{
    if class >= CLASSES {
        return Err(Refusal::BadClass);
    }
    let row = row_of(class);
    let accidental = row.1;
    Ok(Note {
        letter: row.0,
        accidental,
    })
}
