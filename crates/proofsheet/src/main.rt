// The engraver's proof sheet, row by row, as the library answers it. Crate `sheet` proves the first twelve rows.
#![tactic(auto)]

ghost use Rattle.std.specs.Prelude.{◌<◌};

use answer::refusal::Refusal;
use inference::normalize::suffix;
use listing::search::listing;
use notes::note::Note;
use pool::pool::Pairs;
use qualities::quality::quality;
use spelling::tones::tones;
use std::io;
use voicings::range::{HIGHEST, LOWEST};
use voicings::voicing::{Chord, voicing};

fn print_refusal(rt: &impl Print, why: Refusal) -> io::Result<()> {
    let number = why.number();
    println!(rt; "refused {number}")
}

// A text that a call wrote.
fn print_text(rt: &impl Print, output: Result<usize, Refusal>, out: &[u8]) -> io::Result<()> {
    match output {
        Ok(count) => {
            if let Some(text) = out.get(..count) {
                rt.write_all(text)?;
            }
            rt.write_all(b"\n")
        }
        Err(why) => print_refusal(rt, why),
    }
}

// Numbers of so many bytes each, the higher first, with a space before each.
fn print_numbers(
    rt: &impl Print,
    output: Result<usize, Refusal>,
    out: &[u8],
    size: usize,
) -> io::Result<()>
    requires { 0 < size }
{
    match output {
        Ok(count) => {
            if let Some(numbers) = out.get(..count) {
                for bytes in numbers.chunks_exact(size) {
                    let number = bytes
                        .iter()
                        .fold(0, |high, byte| high % 256 * 256 + u32::from(*byte));
                    print!(rt; " {number}")?;
                }
            }
            rt.write_all(b"\n")
        }
        Err(why) => print_refusal(rt, why),
    }
}

fn print_suffix(rt: &impl Print, set: u32) -> io::Result<()> {
    let mut out = [0u8; 64];
    let output = suffix(set, &mut out);
    print_text(rt, output, &out)
}

// Qualities by their numbers.
fn print_quality(rt: &impl Print, set: u32) -> io::Result<()> {
    match quality(set) {
        Ok(found) => rt.println(found.number()),
        Err(why) => print_refusal(rt, why),
    }
}

fn print_listing(rt: &impl Print, name: &[u8]) -> io::Result<()> {
    let mut out = [0u8; 16];
    let output = listing(name, &mut out);
    print_numbers(rt, output, &out, 2)
}

// On C.
fn print_voicing(
    rt: &impl Print,
    bass: Option<u32>,
    lead: Option<u8>,
    classes: &[u8],
    intervals: &[u8],
) -> io::Result<()> {
    let mut out = [0u8; 35];
    let output = voicing(
        Chord {
            root: 0,
            bass,
            lowest: LOWEST,
            highest: HIGHEST,
            lead,
        },
        Pairs { classes, intervals },
        &mut out,
    );
    print_numbers(rt, output, &out, 1)
}

fn print_tones(rt: &impl Print, root: u32, set: u32) -> io::Result<()> {
    let mut out = [0u8; 34];
    let output = tones(root, set, &mut out);
    print_text(rt, output, &out)
}

// A note, moved as one moves to another.
fn print_moved(rt: &impl Print, from: Note, note: Note, to: Note) -> io::Result<()> {
    let mut out = [0u8; 7];
    match from.transpose(note, to) {
        Ok(moved) => {
            let output = moved.text(&mut out);
            print_text(rt, output, &out)
        }
        Err(why) => print_refusal(rt, why),
    }
}

fn print_symbols(rt: &impl Print) -> io::Result<()> {
    for set in [1, 145, 257, 693, 1683, 1687, 1177, 1209] {
        print_suffix(rt, set)?;
    }
    for set in [0, 128, 129, 1057, 2577] {
        print_quality(rt, set)?;
    }
    print_listing(rt, b"+")?;
    print_listing(rt, b"7(b13)")
}

// Intervals by their numbers: 1 is 0, b3 3, 3 4, b5 7, 5 8, Ma7 14, b9 16.
fn print_voicings(rt: &impl Print) -> io::Result<()> {
    print_voicing(rt, None, None, &[0, 4, 7, 11], &[0, 4, 8, 14])?;
    print_voicing(rt, None, Some(72), &[0, 3, 6], &[0, 3, 7])?;
    print_voicing(rt, None, Some(60), &[0, 1], &[0, 16])?;
    print_voicing(rt, Some(4), None, &[0, 4, 7], &[0, 4, 8])
}

fn main(rt: HostRuntime) -> io::Result<()> {
    print_symbols(&rt)?;
    print_voicings(&rt)?;
    print_tones(&rt, 0, 73)?;
    print_tones(&rt, 6, 137)?;
    print_moved(&rt, Note::new(0, 0), Note::new(2, -1), Note::new(4, 0))
}
