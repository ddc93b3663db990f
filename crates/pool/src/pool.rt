// The pool of a chord's tones, as the Rust's `voicings/mod.rs` gathers it.
ghost use Rattle.std.specs.Prelude.{◌≡◌, ◌≤◌, length, take};
ghost use Rattle.pool.specs.Held.{places, laid_over, pool_of};
ghost use Rattle.pool.specs.Pool.{base_of, tone_of, tones_of, without_at};
ghost use Rattle.pool.specs.Order.{sorted};

use crate::order::order;
use intervals::interval::Interval;
use std::marker::Model;

// A tone of a chord: its interval's semitones in one octave, its class, and its interval's number.
#[derive(Clone, Copy)]
pub struct Tone {
    pub base: u8,
    pub class: u8,
    pub interval: u8,
}

// The pairs of note class and interval that a host gives, in two ranges side by side: so they come from C (`hemotusap_voicing`).
#[derive(Clone, Copy)]
pub struct Pairs<'a> {
    pub classes: &'a [u8],
    pub intervals: &'a [u8],
}

// The most tones of a pool.
pub const MOST: usize = 16;

// What stands where no tone does.
pub const BLANK: Tone = Tone {
    base: 0,
    class: 0,
    interval: 0,
};

// At most so many tones. The first `count` places hold them.
#[derive(Clone, Copy)]
pub struct Pool {
    pub tones: [Tone; MOST],
    pub count: usize,
}

// Clauses see the list of the tones, and that of what stands behind them: of both the fields can be had again, so that a pool is `Copy`.
impl Model for Pool {
    ghost use Rattle.std.specs.Prelude.{◌≡◌, ◌≤◌, ◌++◌, length, take, drop};
    ghost use Rattle.std.proofs.Common.{arith, take-append-drop, length-take-le};
    ghost use Rattle.pool.specs.Held.{Held};

    ghost Value = { Held };

    ghost view = { λ pool. record { tones = take pool.count pool.tones; spare = drop pool.count pool.tones } };

    ghost invariant = { λ pool. (pool.count ≤ 16) × (length pool.tones ≡ 16) };

    ghost inverse = { λ held. record { tones = held.tones ++ held.spare; count = length held.tones } };

    ghost inverse_ok = { λ pool is i. record {
      tones = take-append-drop pool.count pool.tones i;
      count = length-take-le pool.count pool.tones (omega (arith, is.0, is.1)) i;
    } };
}

fn base(interval: u8) -> u8
    ensures { result ≡ base_of interval }
{
    Interval::from_number(u32::from(interval)).map_or(0, |named| (named.st() % 12) as u8)
}

impl Tone {
    fn new(class: u8, interval: u8) -> Tone
        ensures { result ≡ tone_of class interval }
    {
        Tone {
            base: base(interval),
            class,
            interval,
        }
    }
}

impl Pairs<'_> {
    // How many are used: as many as the shorter range has.
    pub fn used(self) -> usize
        ensures { result ≡ length (tones_of self.entry.classes.now self.entry.intervals.now) }
    {
        self.classes.len().min(self.intervals.len())
    }
}

impl Pool {
    pub fn tones(&self) -> &[Tone]
        ensures tones { result.now ≡ self.now.tones }
        ensures few { length self.now.tones ≤ 16 }
        ensures place { result.ref_ptr ≡ self.entry.ref_ptr }
    {
        &self.tones[..self.count]
    }

    // What stands behind the tones that are left is as it was; past the last tone the pool stays as it is. By index, since `copy_within` would take `memmove` of the C library, and the archive takes none.
    pub fn remove(&mut self, place: usize)
        ensures { self.new ≡ laid_over (without_at place self.old.tones) (places self.old) }
    {
        if place >= self.count {
            return;
        }
        let last = self.count - 1;
        for at in place..last {
            self.tones[at] = self.tones[at + 1];
        }
        self.count = last;
    }
}

// The tones of the pairs that are used, in order of base, and blanks behind them; of more than the most, the first. By index: `zip` would be one of three runs, with two pairs to take apart.
pub fn ordered_pool(pairs: Pairs) -> Pool
    ensures { result ≡ pool_of (sorted (take 16 (tones_of pairs.entry.classes.now pairs.entry.intervals.now))) }
{
    let count = pairs.used().min(MOST);
    let mut tones = [BLANK; MOST];
    for i in 0..count {
        tones[i] = Tone::new(pairs.classes[i], pairs.intervals[i]);
    }
    order(&mut tones[..count]);
    Pool { tones, count }
}
