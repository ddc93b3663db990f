// The lead: the key of an unbarred tone that is nearest to the wanted one, and what the pool is once it has left.
ghost use Rattle.std.specs.Prelude.{◌≡◌, cond, take};
ghost use Rattle.intervals.specs.Sets.{without};
ghost use Rattle.pool.specs.Pool.{tones_of};
ghost use Rattle.pool.specs.Order.{sorted};
ghost use Rattle.leads.specs.Lead.{rubs, unbarred, owns, without_last, lead_of};
ghost use Rattle.leads.specs.private.Leaves.{left_by, led_of};

use keys::bits::in_set;
use keys::nearest::{OCTAVE_KEY, Span, distance, nearest, nothing};
use pool::pool::{Pairs, Pool, Tone, ordered_pool};

// What is left of the pool once the lead has left, and the lead. The pool comes first, where it is aligned.
#[derive(Clone, Copy)]
pub struct Led {
    pub left: Pool,
    pub key: u8,
}

// Every interval, as a set.
const EVERY: u32 = (1 << 23) - 1;

fn rubs(tone: Tone, next: Tone) -> bool
    ensures { result ≡ rubs tone next }
{
    let apart = distance(tone.base, next.base);
    (apart == 1) | (apart == 11)
}

// A set of intervals after a tone and its successor: where they rub, the successor's is barred. Without a branch: which pairs rub
// cannot be foretold.
fn barring(free: u32, tone: Tone, next: Tone) -> u32
    ensures { result ≡ cond (rubs tone next) (without next.interval free) free }
{
    let bars = rubs(tone, next) & in_set(free, next.interval);
    free - (u32::from(bars) << (next.interval % 32))
}

// The intervals that no tone bars. Each tone is its successor's, the last the first's.
fn unbarred(tones: &[Tone]) -> u32
    ensures { result ≡ unbarred tones.now }
{
    let Some(&last) = tones.last() else {
        return EVERY;
    };
    let mut free = EVERY;
    let mut tone = last;
    for &next in tones {
        free = barring(free, tone, next);
        tone = next;
    }
    free
}

// The lead: the nearest key of an unbarred tone, or 0 where none has a key. As `best` of crate `voicings`, but of offers that are made one by one, and kept nowhere.
fn lead_key(tones: &[Tone], wanted: u8, span: Span) -> u8
    ensures { result ≡ lead_of span.lowest span.limit wanted tones.now }
{
    let free = unbarred(tones);
    let mut found = nothing(0);
    for &tone in tones {
        let offer = nearest(tone, wanted, span);
        if (offer.rank < found.rank) & in_set(free, tone.interval) {
            found = offer;
        }
    }
    found.key
}

fn owns(tone: Tone, key: u8, span: Span) -> bool
    ensures { result ≡ owns span.lowest span.limit key tone }
{
    let first = OCTAVE_KEY + u32::from(tone.class);
    let wide = u32::from(key);
    (first <= wide) && (span.lowest <= key) & (key < span.limit) & ((wide - first) % 12 == 0)
}

// The place of the last tone that owns a key.
fn last_owner(tones: &[Tone], key: u8, span: Span) -> Option<usize>
    ensures { without_last span.lowest span.limit key tones.now ≡ left_by result tones.now }
{
    tones.iter().rposition(|&tone| owns(tone, key, span))
}

// The lead of the pairs of a chord that is nearest to a wanted key, in a range, and the pool, in order of base, that it leaves: what stands
// behind its tones is as it was.
pub fn nearest_lead(pairs: Pairs, wanted: u8, span: Span) -> Led
    ensures { result ≡ led_of span.lowest span.limit wanted (sorted (take 16 (tones_of pairs.entry.classes.now pairs.entry.intervals.now))) }
{
    let mut left = ordered_pool(pairs);
    let key = lead_key(left.tones(), wanted, span);
    if let Some(place) = last_owner(left.tones(), key, span) {
        left.remove(place);
    }
    Led { left, key }
}
