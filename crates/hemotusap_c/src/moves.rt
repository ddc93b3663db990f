// Note moves, as C calls them.
ghost use Rattle.std.specs.Prelude.{◌≡◌};
ghost use Rattle.notes.specs.Notes.{note_of, get_note_answer, transpose_answer};
ghost use Rattle.host.specs.Numbers.{note_answer_number};

use hemotusap::moves;

#[unsafe(no_mangle)]
pub extern "C" fn hemotusap_get_note(
    letter: u32,
    accidental: i32,
    semitones: u32,
    degree: u32,
) -> i64
    ensures { result ≡ note_answer_number (get_note_answer (note_of letter accidental) semitones degree) }
{
    moves::hemotusap_get_note(letter, accidental, semitones, degree)
}

#[unsafe(no_mangle)]
pub extern "C" fn hemotusap_transpose(
    from_letter: u32,
    from_accidental: i32,
    letter: u32,
    accidental: i32,
    to_letter: u32,
    to_accidental: i32,
) -> i64
    ensures { result ≡ note_answer_number (transpose_answer (note_of from_letter from_accidental) (note_of letter accidental) (note_of to_letter to_accidental)) }
{
    moves::hemotusap_transpose(
        from_letter,
        from_accidental,
        letter,
        accidental,
        to_letter,
        to_accidental,
    )
}
