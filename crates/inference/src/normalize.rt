// The suffix of a rooted set, as the Rust's `inference/normalize.rs` writes it: quality with modifier, `sus`, then in one pair
// of parentheses alterations, adds, omits.
ghost use Rattle.std.specs.Prelude.{◌≡◌, ◌++◌};
ghost use Rattle.answer.specs.Replies.{Answered};
ghost use Rattle.rules.specs.Classes.{intervals_in};
ghost use Rattle.rules.specs.Suffix.{worded, listed, parenthesized, suffix_reply};
ghost use Rattle.inference.specs.private.Adds.{Adds};
ghost use Rattle.inference.specs.private.Prefixes.{prefix_text, part, is_first_behind};
ghost use Rattle.inference.specs.Puts.{PutsSuffix, with_suffix};
ghost use Rattle.inference.specs.private.Described.{head_of, parts_of};

use crate::wording::{CLOSE, NINE, Prefix, SUS, add_where, before_part, modifier_word};
use answer::refusal::Refusal;
use answer::text::Text;
use descriptors::descriptor::{Descriptor, describe};
use descriptors::kinds::kind_of;
use descriptors::members::Members;
use intervals::interval::{Interval, MAJOR_SEVENTH};

// The longest that a suffix can be.
const LONGEST: usize = 64;

// The room that a suffix asks for where it is put: a word is stored whole, so that the last has eight bytes.
pub const ROOM: usize = LONGEST + 8;

// The suffix of a rooted set, written to the front of `out`.
pub fn suffix(set: u32, out: &mut [u8]) -> Result<usize, Refusal>
    ensures { Answered (suffix_reply set) out.old result out.new }
{
    let descriptor = describe(set)?;
    let mut text = Text::<ROOM>::new();
    push_described(&mut text, descriptor);
    text.give(out)
}

// Writes the suffix of a rooted set at a place of a buffer, and answers the place behind it: what comes next goes there. Where the number is
// no rooted set, or the longest suffix and a word's eight bytes have no room, nothing is written and the place stays. What stands behind the
// place the contract leaves open.
// It has a buffer with a place beside it, and no `Text`, because `PutsSuffix` may not change.
pub fn put_suffix(buffer: &mut [u8], at: usize, set: u32) -> usize
    ensures { PutsSuffix set buffer.old at result buffer.new }
{
    if buffer.len() < ROOM || buffer.len() - ROOM < at {
        return at;
    }
    let mut text = Text::<ROOM>::new();
    push_suffix(&mut text, set);
    let suffix = text.as_slice();
    let end = at + suffix.len();
    buffer[at..end].copy_from_slice(suffix);
    end
}

// Adds the suffix of a rooted set to a text. Where the number is no rooted set, or the longest suffix and a word's eight bytes have no room,
// the text stays.
pub fn push_suffix<const N: usize>(text: &mut Text<N>, set: u32)
    ensures { text.new ≡ with_suffix N text.old set }
{
    if text.as_slice().len() + ROOM > N {
        return;
    }
    if let Ok(descriptor) = describe(set) {
        push_described(text, descriptor);
    }
}

// Inlined, as are both parts of it: a descriptor that is handed over in memory has to be waited for.
#[inline(always)]
fn push_described<const N: usize>(text: &mut Text<N>, descriptor: Descriptor)
    ensures { Adds N text.old (head_of descriptor ++ parenthesized (parts_of descriptor)) text.new }
{
    push_heading(text, descriptor);
    push_parentheses(text, descriptor);
}

#[inline(always)]
fn push_heading<const N: usize>(text: &mut Text<N>, descriptor: Descriptor)
    ensures { Adds N text.old (head_of descriptor) text.new }
{
    let kind = kind_of(descriptor.quality);
    text.push(kind.0);
    if descriptor.nine != 0 {
        text.push(NINE);
    }
    text.push(modifier_word(kind.1, descriptor.modifier));
    if descriptor.sus {
        text.push(SUS);
    }
}

// The 9 behind the `6` keeps its place in the numbering: where it is the first, no add carries `add`.
#[inline(always)]
fn push_parentheses<const N: usize>(text: &mut Text<N>, descriptor: Descriptor)
    ensures { Adds N text.old (parenthesized (parts_of descriptor)) text.new }
{
    let adds = descriptor.adds;
    let nine = descriptor.nine;
    let first = add_where((nine == 0) | (adds & MAJOR_SEVENTH != 0));
    let then = add_where(adds == 0);
    let no_alterations = push_parts(text, true, Prefix::None, descriptor.alterations);
    let no_adds = push_parts(text, no_alterations, first, adds ^ nine);
    let no_third = push_parts(text, no_adds, then, descriptor.third);
    let no_parts = push_parts(text, no_third, Prefix::Omit, descriptor.omits);
    if !no_parts {
        text.push(CLOSE);
    }
}

// Adds each interval of a set as a part of the parentheses, and answers whether the next part is the first.
// A struct of `first` and `prefix` is no plainer: `push_parentheses` sets each by itself.
fn push_parts<const N: usize>(
    text: &mut Text<N>,
    mut first: bool,
    mut prefix: Prefix,
    set: u32,
) -> bool
    ensures next { result ≡ is_first_behind first (intervals_in set) }
    ensures adds { Adds N text.old (listed first (worded (prefix_text prefix) (intervals_in set))) text.new }
{
    for interval in Members::of(set) {
        push_part(text, first, prefix, interval);
        first = false;
        prefix = Prefix::None;
    }
    first
}

// Adds one part: what opens the parentheses, or a comma; the word that it carries; the interval.
fn push_part<const N: usize>(text: &mut Text<N>, first: bool, prefix: Prefix, interval: Interval)
    ensures { Adds N text.old (part first prefix interval) text.new }
{
    text.push(before_part(first, prefix));
    text.push(interval.to_chord_notation());
}
