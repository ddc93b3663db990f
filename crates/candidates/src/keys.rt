// The classes of a list of MIDI keys, and a set of classes seen from another root, as in the Rust's `inference/mod.rs`.
ghost use Rattle.std.specs.Prelude.{◌≡◌, true, ◌%◌, ◌<◌, ◌≤◌, ℕ, List, length, take, slice_get};
ghost use Rattle.intervals.specs.Sets.{has, is_rooted};
ghost use Rattle.candidates.specs.Keys.{seen_from, firsts};
ghost use Rattle.candidates.specs.Candidates.{chord};
ghost use Rattle.candidates.specs.private.Classes.{set_of, Within, Listed};

use crate::parts::Candidate;
use std::marker::Model;

const CLASSES: u32 = 12;

// The classes of a list of keys, each once, in order of first occurrence; and their set.
#[derive(Drop)]
pub struct Classes {
    order: [u8; 12],
    count: usize,
    set: u32,
}

// Clauses see the list of classes.
impl Model for Classes {
    ghost Value = { List ℕ };

    ghost view = { λ c. take c.count c.order };

    ghost invariant = { λ c. Listed c.order c.count c.set };
}

impl Classes {
    pub(crate) fn of(keys: &[u8]) -> Self
        ensures { result ≡ firsts keys.now }
    {
        let mut order = [0; 12];
        let mut count = 0;
        let mut set: u32 = 0;
        for &key in keys {
            let class = key % 12;
            if (set >> class) % 2 == 0 {
                order[count] = class;
                count += 1;
                set += 1 << class;
            }
        }
        Classes { order, count, set }
    }

    pub(crate) fn set(&self) -> u32
        ensures { result ≡ set_of self.now }
    {
        self.set
    }

    pub(crate) fn as_slice(&self) -> &[u8]
        ensures all { result.now ≡ self.now }
        ensures each { Within (set_of self.now) self.now }
        ensures few { length self.now ≤ 12 }
    {
        &self.order[..self.count]
    }

    pub(crate) fn get(&self, number: usize) -> Option<u32>
        ensures { result ≡ slice_get self.now number }
    {
        self.as_slice().get(number).map(|&class| u32::from(class))
    }

    // A class of the list as a root: the list's set seen from it, over a bass or none.
    pub(crate) fn chord(&self, bass: Option<u32>, root: u32) -> Candidate
        requires { (root < 12) × (has (set_of self.now) root ≡ true) }
        ensures chord { result ≡ chord (set_of self.now) bass root }
        ensures rooted { is_rooted result.set ≡ true }
    {
        Candidate {
            root,
            bass,
            set: seen_from(root, self.set),
        }
    }
}

// A class of the two octaves above C, in the first: a division costs more than the rest of a walk's step.
fn in_octave(class: u32) -> u32
    requires { class < 24 }
    ensures { result ≡ class % 12 }
{
    if class < CLASSES {
        return class;
    }
    class - CLASSES
}

// A set seen from one of its classes, by a walk over the twelve: its class k is the one k above the root.
pub(crate) fn seen_from(root: u32, set: u32) -> u32
    requires class { root < 12 }
    requires classes { set < 4096 }
    ensures { result ≡ seen_from root set }
{
    let mut seen: u32 = 0;
    for k in 0..CLASSES {
        seen += (set >> in_octave(root + k)) % 2 << k;
    }
    seen
}
