// The codes that a line of text holds: decimal, one to three digits each, one space between.
ghost use Rattle.std.specs.Prelude.{◌≡◌, ◌≤◌, length};
ghost use Rattle.chordlist.specs.Codes.{codes_in};
ghost use Rattle.chordlist.specs.private.Calls.{code_in};

use crate::bytes::Bytes;

// The fewest and the most digits of a code, and the largest code.
const FEWEST: usize = 1;

const MOST: usize = 3;

const LAST_CODE: u32 = 255;

const SPACE: u8 = b' ';

// The most codes that a line has.
const CODES: usize = 512;

// The code that stands between spaces.
fn code(part: &[u8]) -> Option<u8>
    ensures { result ≡ code_in part.now }
{
    if part.len() < FEWEST || part.len() > MOST {
        return None;
    }
    let mut value: u32 = 0;
    for &byte in part {
        if !byte.is_ascii_digit() {
            return None;
        }
        value = value * 10 + u32::from(byte - b'0');
    }
    if value > LAST_CODE {
        return None;
    }
    Some(value as u8)
}

pub(crate) fn read_codes(line: &[u8]) -> Option<Bytes<CODES>>
    requires { length line.now ≤ 1024 }
    ensures { result ≡ codes_in line.now }
{
    if line.is_empty() {
        return Some(Bytes::new());
    }
    let mut codes = Bytes::new();
    for part in line.split(|byte| *byte == SPACE) {
        codes.push(code(part)?);
    }
    Some(codes)
}
