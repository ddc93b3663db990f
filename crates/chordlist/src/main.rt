// Chord candidates for the lines of MIDI codes on standard input, `60 64 67` say: a line for each candidate, then a full
// stop; a question mark for a line that can't be read, or has a code that is no key.
#![tactic(auto)]

mod bytes;
mod codes;
mod input;
mod reply;

ghost use Rattle.std.specs.Prelude.{◌≡◌, ℕ, ◌-◌, ◌^◌, ◌<◌, List, length as size, take, IfSome, OnOk, OnErr};
ghost use Rattle.std.specs.Io.KnownBytes.{Appends, Consumes, IsAtEnd};
ghost use Rattle.names.specs.Names.{flats};
ghost use Rattle.chordlist.specs.Input.{input_text};
ghost use Rattle.chordlist.specs.private.Pieces.{held_after, said_by};

use input::{Line, finish, take_in};
use reply::Answer;
use std::io;
use std::io::{Read, Write};

// The most bytes of a piece.
const PIECE: usize = 4096;

// Takes in a piece of the input byte by byte, and prints what each has written.
fn feed<W: Write>(piece: &[u8], line: &mut Line, output: &mut W) -> io::Result<()>
    ensures held { OnOk result (line.new ≡ held_after line.old piece.now) }
    ensures said { OnOk result (Appends (W.contents output.old) (W.contents output.new) (said_by flats line.old piece.now)) }

    // The error is the output's, of which std says nothing then. The line holds what is kept after some of the piece.
    ensures failed { OnErr result ((taken : ℕ) × (line.new ≡ held_after line.old (take taken piece.now))) }
{
    let mut answer = Answer::new();
    for &byte in piece {
        take_in(byte, line, &mut answer);
        let said = answer.as_slice();
        if !said.is_empty() {
            output.write_all(said)?;
        }
    }
    Ok(())
}

// Answers the lines of an input, which comes in pieces. A proved loop has to end, and nothing says that the input does: the
// turns are more than any run uses up.
fn answer_all<R: Read, W: Write>(input: &mut R, output: &mut W) -> io::Result<()>
    ensures answered { OnOk result ((read : List ℕ) × Consumes (R.remaining input.old) (R.remaining input.new) read
        × Appends (W.contents output.old) (W.contents output.new) (input_text flats read)) }
    ensures whole { OnOk result (IfSome (R.remaining input.old) (λ bytes. size bytes < 2 ^ 64 - 1 → IsAtEnd (R.remaining input.new))) }

    // After an error of either, the input has lost the bytes that were read, and no others; of the output std says nothing.
    ensures failed { OnErr result ((read : List ℕ) × Consumes (R.remaining input.old) (R.remaining input.new) read) }
{
    let mut line = Line::new();
    let mut piece = [0u8; PIECE];
    for _ in 0..u64::MAX {
        let count = input.read(&mut piece)?;
        if count == 0 {
            break;
        }
        feed(&piece[..count], &mut line, output)?;
    }
    let mut answer = Answer::new();
    finish(&line, &mut answer);
    output.write_all(answer.as_slice())
}

fn main(rt: HostRuntime) -> io::Result<()> {
    answer_all(&mut rt.stdin(), &mut rt.stdout())
}
