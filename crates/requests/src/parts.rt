// The parts of a request: one space between, the first of them the name of a call.
use answer::text::Text;

// The most bytes that a range has.
pub(crate) const RANGE: usize = 1200;

// The size of the lowest number of 32 bits.
const LOWEST: u32 = 1 << 31;

// What is left of a line.
#[derive(Clone, Copy)]
pub(crate) struct Parts<'a> {
    pub rest: &'a [u8],
}

impl<'a> Parts<'a> {
    // The next part; one that is not there has no bytes.
    pub(crate) fn next(&mut self) -> &'a [u8] {
        let rest = self.rest;
        match rest.iter().position(|byte| *byte == b' ') {
            Some(end) => {
                self.rest = &rest[end + 1..];
                &rest[..end]
            }
            None => {
                self.rest = &[];
                rest
            }
        }
    }

    pub(crate) fn number(&mut self) -> u32 {
        number(self.next())
    }

    // A number that may be below 0, as far as it fits.
    pub(crate) fn signed(&mut self) -> i32 {
        match self.next() {
            [b'-', digits @ ..] => i32::try_from(number(digits)).map_or(i32::MIN, |size| -size),
            digits => (number(digits) % LOWEST) as i32,
        }
    }

    // The bytes of a list, commas between. A list of none is a minus.
    pub(crate) fn bytes(&mut self) -> Text<RANGE> {
        let mut list = Text::new();
        for item in self.next().split(|byte| *byte == b',') {
            let digits = digits(item);
            if digits.is_empty() {
                break;
            }
            list.push_byte((number(digits) % 256) as u8);
            if digits.len() < item.len() {
                break;
            }
        }
        list
    }
}

// The digits that come first.
fn digits(part: &[u8]) -> &[u8] {
    match part.iter().position(|byte| !byte.is_ascii_digit()) {
        Some(end) => &part[..end],
        None => part,
    }
}

// The number whose digits come first, as far as it fits. A digit's lower half is what it is worth.
fn number(part: &[u8]) -> u32 {
    let value = digits(part).iter().fold(
        0u64,
        |value, byte| value % 1_000_000_000 * 10 + u64::from(*byte % 16),
    );
    (value & 0xffff_ffff) as u32
}
