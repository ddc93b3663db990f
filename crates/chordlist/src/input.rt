// The lines of an input that comes byte by byte: what is kept of a line, and when it is answered.
ghost use Rattle.std.specs.Prelude.{◌≡◌};
ghost use Rattle.names.specs.Names.{flats};
ghost use Rattle.chordlist.specs.private.Pieces.{held_with, said_with, said_at_end};

use crate::bytes::Bytes;
use crate::reply::{Answer, reply};

// One byte more than a line may have, so that a longer one shows.
const KEPT: usize = 1025;

// What is kept of a line.
pub(crate) type Line = Bytes<KEPT>;

const LINE_FEED: u8 = b'\n';

// Takes in a byte of a line: LF has the line answered, and any other byte is kept where it has room.
pub(crate) fn take_in(byte: u8, line: &mut Line, answer: &mut Answer)
    ensures { (line.new ≡ held_with line.old byte) × (answer.new ≡ said_with flats line.old byte) }
{
    if byte == LINE_FEED {
        reply(line.as_slice(), answer);
        line.clear();
    } else {
        answer.clear();
        line.push(byte);
    }
}

// What is printed once the input is over, for what is kept of a last line that has no LF.
pub(crate) fn finish(line: &Line, answer: &mut Answer)
    ensures { answer.new ≡ said_at_end flats line.now }
{
    let line = line.as_slice();
    answer.clear();
    if !line.is_empty() {
        reply(line, answer);
    }
}
