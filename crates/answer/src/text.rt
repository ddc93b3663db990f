// A text in the making: at most `N` bytes at the front of an array, since the library has no heap.
ghost use Rattle.std.specs.Prelude.{◌≡◌, []};
ghost use Rattle.answer.specs.Made.{with_byte, with_word, IsWithBytes};
ghost use Rattle.answer.specs.Replies.{text, Answered};

use crate::output::give;
use crate::refusal::Refusal;
use crate::word::put;
use std::marker::Model;

#[derive(Drop)]
pub struct Text<const N: usize> {
    bytes: [u8; N],
    length: usize,
}

// Clauses see the bytes of the text.
impl<const N: usize> Model for Text<N> {
    ghost use Rattle.std.specs.Prelude.{ℕ, ◌≤◌, List, take};

    ghost Value = { List ℕ };

    ghost view = { λ t. take t.length t.bytes };

    ghost invariant = { λ t. t.length ≤ N };
}

impl<const N: usize> Text<N> {
    pub fn new() -> Self
        ensures { result ≡ [] }
    {
        Text {
            bytes: [0; N],
            length: 0,
        }
    }

    // Adds a word's text. A word is stored whole: where its eight bytes have no room, the text stays.
    pub fn push(&mut self, word: u64)
        ensures { self.new ≡ with_word N self.old word }
    {
        let at = self.length;

        // As `put` tests it, which is inlined: the test is made once.
        if N < 8 || N - 8 < at {
            return;
        }
        put(&mut self.bytes, at, word);

        // A word may tell of more than seven bytes; it adds its eight at most. From the word alone, so that the next word waits for one sum.
        self.length = at + ((word >> 56) as usize).min(8);
    }

    // Adds a byte; where it has no room, the text stays.
    pub fn push_byte(&mut self, byte: u8)
        ensures { self.new ≡ with_byte N self.old byte }
    {
        if self.length < N {
            self.bytes[self.length] = byte;
            self.length += 1;
        }
    }

    // Adds bytes; where they have no room, the text stays.
    pub fn push_bytes(&mut self, bytes: &[u8])
        ensures { IsWithBytes N self.old bytes.now self.new }
    {
        let at = self.length;
        if bytes.len() <= N - at {
            let end = at + bytes.len();
            let memory = &mut self.bytes[..];
            memory[at..end].copy_from_slice(bytes);
            self.length = end;
        }
    }

    pub fn as_slice(&self) -> &[u8]
        ensures bytes { result.now ≡ self.now }
        ensures place { result.ref_ptr ≡ self.entry.ref_ptr }
    {
        &self.bytes[..self.length]
    }

    // Writes the whole text to the front of `out`, as `output::give` does.
    pub fn give(&self, out: &mut [u8]) -> Result<usize, Refusal>
        ensures { Answered (text self.now) out.old result out.new }
    {
        give(self.as_slice(), out)
    }
}
