// The search: the suffix of each rooted set is made once, and compared with the text.
ghost use Rattle.std.specs.Prelude.{◌≡◌, true};
ghost use Rattle.answer.specs.Replies.{text, Answered};
ghost use Rattle.answer.specs.Words.{same};
ghost use Rattle.intervals.specs.Sets.{is_rooted};
ghost use Rattle.rules.specs.Suffix.{suffix_of};
ghost use Rattle.listing.specs.Listing.{listing_of};

use answer::refusal::Refusal;
use answer::text::Text;
use inference::normalize::{ROOM as SUFFIX_ROOM, push_suffix};

// One past the last set; the rooted sets are the odd numbers below it.
const SETS: u16 = 4096;

// No suffix has more bytes.
const LONGEST: usize = 27;

// No suffix stands for more than sixteen sets, of two bytes each.
const ROOM: usize = 32;

// Every rooted set whose suffix is a text, two bytes each, big-endian, rising.
pub fn listing(name: &[u8], out: &mut [u8]) -> Result<usize, Refusal>
    ensures { Answered (text (listing_of name.now)) out.old result out.new }
{
    if name.len() > LONGEST {
        return Ok(0);
    }
    search(name).give(out)
}

fn search(name: &[u8]) -> Text<ROOM>
    ensures { result ≡ listing_of name.now }
{
    let mut found = Text::new();
    for set in (1..SETS).step_by(2) {
        if is_suffix(name, u32::from(set)) {
            let [high, low] = set.to_be_bytes();
            found.push_byte(high);
            found.push_byte(low);
        }
    }
    found
}

fn is_suffix(name: &[u8], set: u32) -> bool
    requires { is_rooted set ≡ true }
    ensures { result ≡ same name.now (suffix_of set) }
{
    let mut suffix = Text::<SUFFIX_ROOM>::new();
    push_suffix(&mut suffix, set);
    name == suffix.as_slice()
}
