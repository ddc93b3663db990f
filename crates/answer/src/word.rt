// A word is a text of at most seven bytes in one number: its bytes from the lowest up, and how many they are in the
// eighth. A table of words is a `match`, and a word is stored whole, with no loop over its bytes.
ghost use Rattle.std.specs.Prelude.{◌≡◌};
ghost use Rattle.answer.specs.Words.{place_after, put_at};

// Takes a buffer and a place, and no `Text`, because `place_after` and `put_at` may not change. Stores a word's eight bytes at a place of a buffer, and answers the place behind its text: a next word goes there.
// Where the eight bytes have no room nothing is stored, and the place stays.
pub fn put(buffer: &mut [u8], at: usize, word: u64) -> usize
    ensures { (result ≡ place_after buffer.old at word) × (buffer.new ≡ put_at buffer.old at word) }
{
    if buffer.len() < 8 {
        return at;
    }
    if buffer.len() - 8 < at {
        return at;
    }
    buffer[at..at + 8].copy_from_slice(&word.to_le_bytes());
    at + (word >> 56) as usize
}
