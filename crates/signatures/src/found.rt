// The line of a number in a text of any bytes.
ghost use Rattle.std.specs.Prelude.{◌≡◌, ◌==◌, position};
ghost use Rattle.answer.specs.Lines.{line_feed};
ghost use Rattle.signatures.specs.Part.{found_in};

const LINE_FEED: u8 = b'\n';

// How many bytes a text has before its first LF.
fn first_length(text: &[u8]) -> Option<usize>
    ensures { result ≡ position (λ b. b == line_feed) text.now }
{
    text.iter().position(|b| *b == LINE_FEED)
}

// Where a line begins and how many bytes it has, its LF not counted.
pub(crate) fn line_in(text: &[u8], number: u32) -> Option<(usize, usize)>
    ensures { result ≡ found_in text.now number }
{
    let mut start = 0;
    for _ in 0..number {
        start += first_length(&text[start..])? + 1;
    }
    Some((start, first_length(&text[start..])?))
}
