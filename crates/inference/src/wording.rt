// The texts that a suffix is made of, as words (`answer::word`).
ghost use Rattle.std.specs.Prelude.{◌≡◌};
ghost use Rattle.answer.specs.Words.{packed};
ghost use Rattle.inference.specs.private.Prefixes.{add_where, before_part};
ghost use Rattle.inference.specs.private.Described.{modifier_word};

use intervals::interval::Interval;

const NOTHING: u64 = 0;

pub(crate) const CLOSE: u64 = 0x0100000000000029; // )

pub(crate) const SUS: u64 = 0x0300000000737573; // sus

pub(crate) const NINE: u64 = 0x0100000000000039; // 9

// What stands before the first of some parts. `None` is a case of the three, so that a table has one pattern for each.
#[derive(Clone, Copy)]
pub enum Prefix {
    None,
    Add,
    Omit,
}

// `add` stands before the add that is numbered first.
pub(crate) fn add_where(first: bool) -> Prefix
    ensures { result ≡ add_where first }
{
    if first { Prefix::Add } else { Prefix::None }
}

// What stands before a part: what opens the parentheses, or a comma, and the word that it carries.
#[tactic(auto, unfolding(answer::specs::Words::bytes, answer::specs::Words::low, answer::specs::Words::packed))]
pub(crate) fn before_part(first: bool, prefix: Prefix) -> u64
    ensures { result ≡ packed (before_part first prefix) }
{
    match (first, prefix) {
        (true, Prefix::None) => 0x0100000000000028, // (
        (true, Prefix::Add) => 0x0400000064646128, // (add
        (true, Prefix::Omit) => 0x05000074696d6f28, // (omit
        (false, Prefix::None) => 0x010000000000002c, // ,
        (false, Prefix::Add) => 0x040000006464612c, // ,add
        (false, Prefix::Omit) => 0x05000074696d6f2c, // ,omit
    }
}

// A modifier, or the word without one, where a quality shows one.
pub(crate) fn modifier_word(unmodified: Option<u64>, modifier: Option<Interval>) -> u64
    ensures { result ≡ modifier_word unmodified modifier }
{
    match (unmodified, modifier) {
        (None, _) => NOTHING,
        (Some(word), None) => word,
        (Some(_), Some(interval)) => interval.to_chord_notation(),
    }
}
