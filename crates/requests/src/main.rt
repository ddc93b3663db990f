// Requests on standard input, a line each, answered by the boundary's functions: its stored input is a list of requests, its
// stored output the Rust's answers to them. A request is a call's name and its arguments, one space between; a call that
// writes is lent a range of ROOM full stops, and what that holds afterwards stands behind the number that the call gave back.
//
//     quality SET                                    candidate_count CODES
//     get_note LETTER COUNT SEMITONES DEGREE         transpose LETTER COUNT LETTER COUNT LETTER COUNT
//     candidate NUMBER CODES                         candidates ROOM CODES
//     suffix ROOM SET                                note_text ROOM LETTER COUNT
//     tones ROOM ROOT SET                            voicing ROOM ROOT BASS LEAD CLASSES INTERVALS
//     listing ROOM TEXT                              harmony ROOM ROOT BASS SET
//     candidates_strict ROOM CODES                   candidates_sharp ROOM CODES
//     candidates_strict_sharp ROOM CODES             candidate_line NUMBER CODES FIFTHS LENGTH LENGTH
//     voicing_within ROOM ROOT BASS LEAD CLASSES INTERVALS LOWEST HIGHEST
//
// Of a candidate's line both listings are made of CODES, each in a range of full stops, of which the first LENGTH bytes are lent:
// the listing whole or cut, or more than it. Behind the number stand the start, the length and the line.
#![tactic(auto)]

mod parts;
mod print;

ghost use Rattle.std.specs.Io.{ReadsAtMost};

use crate::parts::{Parts, RANGE};
use crate::print::{print_bytes, print_part, print_size};
use answer::text::Text;
use hemotusap::moves::{hemotusap_get_note, hemotusap_transpose};
use hemotusap::naming::{hemotusap_note_text, hemotusap_quality};
use hemotusap::scores::hemotusap_harmony;
use hemotusap::symbols::{
    hemotusap_candidate, hemotusap_candidate_count, hemotusap_candidate_line, hemotusap_candidates,
    hemotusap_candidates_sharp, hemotusap_candidates_strict, hemotusap_candidates_strict_sharp,
    hemotusap_listing, hemotusap_suffix, hemotusap_tones,
};
use hemotusap::voices::{hemotusap_voicing, hemotusap_voicing_within};
use std::io;
use std::io::Read;

const LINE_FEED: u8 = b'\n';

// The most bytes of input; a list that is longer is not begun.
const INPUT: usize = 262144;

const FULL_STOP: u8 = b'.';

fn candidate(mut parts: Parts) -> i64 {
    let number = parts.number();
    hemotusap_candidate(parts.bytes().as_slice(), number)
}

fn get_note(mut parts: Parts) -> i64 {
    hemotusap_get_note(
        parts.number(),
        parts.signed(),
        parts.number(),
        parts.number(),
    )
}

fn transpose(mut parts: Parts) -> i64 {
    hemotusap_transpose(
        parts.number(),
        parts.signed(),
        parts.number(),
        parts.signed(),
        parts.number(),
        parts.signed(),
    )
}

// The chord that a request for a voicing names.
#[derive(Drop)]
struct Chord {
    root: u32,
    bass: u32,
    lead: u32,
    classes: Text<RANGE>,
    intervals: Text<RANGE>,
}

impl Chord {
    fn read(parts: &mut Parts) -> Chord {
        Chord {
            root: parts.number(),
            bass: parts.number(),
            lead: parts.number(),
            classes: parts.bytes(),
            intervals: parts.bytes(),
        }
    }
}

fn voicing(mut parts: Parts, out: &mut [u8]) -> i64 {
    let chord = Chord::read(&mut parts);
    hemotusap_voicing(
        chord.root,
        chord.bass,
        chord.classes.as_slice(),
        chord.intervals.as_slice(),
        chord.lead,
        out,
    )
}

fn voicing_within(mut parts: Parts, out: &mut [u8]) -> i64 {
    let chord = Chord::read(&mut parts);
    hemotusap_voicing_within(
        chord.root,
        chord.bass,
        parts.number(),
        parts.number(),
        chord.classes.as_slice(),
        chord.intervals.as_slice(),
        chord.lead,
        out,
    )
}

// A call that writes into a lent range.
fn writing(name: &[u8], mut parts: Parts, out: &mut [u8]) -> Option<i64> {
    Some(match name {
        b"suffix" => hemotusap_suffix(parts.number(), out),
        b"candidates" => hemotusap_candidates(parts.bytes().as_slice(), out),
        b"candidates_strict" => hemotusap_candidates_strict(parts.bytes().as_slice(), out),
        b"candidates_sharp" => hemotusap_candidates_sharp(parts.bytes().as_slice(), out),
        b"candidates_strict_sharp" => hemotusap_candidates_strict_sharp(
            parts.bytes().as_slice(),
            out,
        ),
        b"tones" => hemotusap_tones(parts.number(), parts.number(), out),
        b"note_text" => hemotusap_note_text(parts.number(), parts.signed(), out),
        b"listing" => hemotusap_listing(parts.rest, out),
        b"voicing" => voicing(parts, out),
        b"voicing_within" => voicing_within(parts, out),
        b"harmony" => hemotusap_harmony(parts.number(), parts.number(), parts.number(), out),
        _ => return None,
    })
}

// Numbers are printed as numbers, texts as they are.
fn reply_writing(rt: &impl Print, name: &[u8], mut parts: Parts) -> io::Result<()> {
    let room = parts.number() as usize;
    let mut range = [FULL_STOP; RANGE];
    let Some(out) = range.get_mut(..room) else {
        return Ok(());
    };
    if let Some(given) = writing(name, parts, out) {
        rt.print(given)?;
    }
    match name {
        b"listing" | b"voicing" | b"voicing_within" => print_bytes(rt, out),
        _ => {
            rt.write_all(b" ")?;
            rt.write_all(out)
        }
    }
}

fn reply_part<'a>(
    rt: &impl Print,
    flat: &'a [u8],
    sharp: &'a [u8],
    number: u32,
    fifths: i32,
) -> io::Result<()> {
    // No answer has these, so that one which is not written shows.
    let mut start = u64::MAX;
    let mut length = u64::MAX;
    let given = hemotusap_candidate_line(flat, sharp, number, fifths, &mut start, &mut length);
    rt.print(given)?;
    print_size(rt, start)?;
    print_size(rt, length)?;
    rt.write_all(b" ")?;
    print_part(rt, if given == 0 { flat } else { sharp }, start, length)
}

fn reply_candidate_line(rt: &impl Print, mut parts: Parts) -> io::Result<()> {
    let number = parts.number();
    let codes = parts.bytes();
    let fifths = parts.signed();
    let mut flat = [FULL_STOP; RANGE];
    let mut sharp = [FULL_STOP; RANGE];
    hemotusap_candidates(codes.as_slice(), &mut flat);
    hemotusap_candidates_sharp(codes.as_slice(), &mut sharp);
    let Some(flat) = flat.get(..parts.number() as usize) else {
        return Ok(());
    };
    let Some(sharp) = sharp.get(..parts.number() as usize) else {
        return Ok(());
    };
    reply_part(rt, flat, sharp, number, fifths)
}

fn reply(rt: &impl Print, line: &[u8]) -> io::Result<()> {
    let mut parts = Parts { rest: line };
    match parts.next() {
        b"quality" => rt.print(hemotusap_quality(parts.number())),
        b"candidate_count" => rt.print(hemotusap_candidate_count(parts.bytes().as_slice())),
        b"candidate" => rt.print(candidate(parts)),
        b"get_note" => rt.print(get_note(parts)),
        b"transpose" => rt.print(transpose(parts)),
        b"candidate_line" => reply_candidate_line(rt, parts),
        name => reply_writing(rt, name, parts),
    }
}

// Bytes behind the last line feed are no line.
fn reply_all(rt: &impl Print, input: &[u8]) -> io::Result<()> {
    for line in input.split_inclusive(|byte| *byte == LINE_FEED) {
        if let [line @ .., LINE_FEED] = line {
            reply(rt, line)?;
            rt.write_all(b"\n")?;
        }
    }
    Ok(())
}

// Reads until a range is full or the input ends, and gives how many bytes stand at the range's front. A loop of its own, since
// std's `read_exact` does not say how many bytes a shorter input had, and `read_to_end` needs heap.
fn read_full(input: &mut impl Read, range: &mut [u8]) -> io::Result<usize>
    ensures { ReadsAtMost result range.new }
{
    let mut count = 0;
    while count < range.len() {
        let more = input.read(&mut range[count..])?;
        if more == 0 {
            break;
        }
        count += more;
    }
    Ok(count)
}

fn main(rt: HostRuntime) -> io::Result<()> {
    let mut input = [0u8; INPUT];
    let count = read_full(&mut rt.stdin(), &mut input)?;
    if count < INPUT {
        reply_all(&rt, &input[..count])?;
    }
    Ok(())
}
