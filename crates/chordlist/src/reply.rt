// The text that answers a line: the candidates of its keys and a full stop, or a question mark.
ghost use Rattle.std.specs.Prelude.{◌≡◌};
ghost use Rattle.names.specs.Names.{flats};
ghost use Rattle.chordlist.specs.Replies.{bad_text, codes_text, line_text};

use crate::bytes::Bytes;
use crate::codes::read_codes;
use strict::entry::candidates_strict;

// Candidates have at most 840 bytes, and then comes the line `.`.
const ROOM: usize = 842;

pub(crate) type Answer = Bytes<ROOM>;

// The most bytes that a line has before its end.
const LONGEST: usize = 1024;

pub(crate) fn reply(line: &[u8], answer: &mut Answer)
    ensures { answer.new ≡ line_text flats line.now }
{
    if line.len() <= LONGEST {
        if let Some(codes) = read_codes(line) {
            return reply_codes(codes.as_slice(), answer);
        }
    }
    reply_bad(answer);
}

fn reply_codes(codes: &[u8], answer: &mut Answer)
    ensures { answer.new ≡ codes_text flats codes.now }
{
    match candidates_strict(codes, &mut answer.array) {
        Ok(count) => {
            answer.len = count;
            answer.push(b'.');
            answer.push(b'\n');
        }
        // A code above 127, since there is room for all candidates.
        Err(_) => reply_bad(answer),
    }
}

fn reply_bad(answer: &mut Answer)
    ensures { answer.new ≡ bad_text }
{
    answer.clear();
    answer.push(b'?');
    answer.push(b'\n');
}
