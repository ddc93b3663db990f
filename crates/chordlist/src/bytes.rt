// Up to N bytes in a row. `Text` would be no plainer: to clear it, or to lend its array to a call that writes, would take public functions for this program alone.
ghost use Rattle.std.specs.Prelude.{◌≡◌, ℕ, ◌≤◌, List, [], ◌∷◌, ◌++◌, length, take};

use std::marker::Model;

// No heap: the bytes stand at the front of an array, whose others say nothing.
#[derive(Drop)]
pub struct Bytes<const N: usize> {
    pub(crate) array: [u8; N],
    pub(crate) len: usize,
}

// Clauses see the bytes in front.
impl<const N: usize> Model for Bytes<N> {
    ghost Value = { List ℕ };

    ghost view = { λ b. take b.len b.array };

    ghost invariant = { λ b. b.len ≤ N };
}

impl<const N: usize> Bytes<N> {
    pub(crate) fn new() -> Self
        ensures { result ≡ [] }
    {
        Bytes {
            array: [0; N],
            len: 0,
        }
    }

    pub(crate) fn as_slice(&self) -> &[u8]
        ensures { result.now ≡ self.now }
    {
        &self.array[..self.len]
    }

    pub(crate) fn clear(&mut self)
        ensures { self.new ≡ [] }
    {
        self.len = 0;
    }

    // Where it has no room, a byte is dropped.
    pub(crate) fn push(&mut self, byte: u8)
        ensures { self.new ≡ take N (self.old ++ byte ∷ []) }
    {
        if self.len < N {
            self.array[self.len] = byte;
            self.len += 1;
        }
    }
}
