// A rooted set described, as in the Rust's `inference/normalize.rs`: its intervals, the quality that it shows, and what of it a suffix
// names. Sets of classes, of intervals and of degrees are numbers, a bit for each member.
ghost use Rattle.std.specs.Prelude.{◌≡◌};
ghost use Rattle.rules.specs.private.Steps.{extensions_from, unstacked_from, modifier_from, adds_from, nine_from, last_from, omitted_third_from, omitted_fifth_from};
ghost use Rattle.descriptors.specs.Descriptors.{descriptor_answer};
ghost use Rattle.descriptors.specs.private.Split.{Splits};

use crate::classes::{CLASS_3, CLASS_4, CLASS_5, CLASS_9, intervals};
use crate::kinds::kind_of;
use crate::showing::shown_quality;
use answer::refusal::Refusal;
use intervals::interval::{
    AUGMENTED_FIFTH, DIMINISHED_FIFTH, ELEVENTH, FLAT_NINTH, FLAT_THIRTEENTH, Interval,
    MAJOR_SEVENTH, MAJOR_SIXTH, MAJOR_THIRD, NINTH, PERFECT_FIFTH, SHARP_ELEVENTH, SHARP_NINTH,
    THIRTEENTH,
};
use intervals::set::Rooted;
use qualities::quality::ChordQuality;

const FIFTHS: u32 = DIMINISHED_FIFTH | PERFECT_FIFTH | AUGMENTED_FIFTH;

const DEGREE_7: u32 = 1 << 7;

const DEGREE_9: u32 = 1 << 9;

const DEGREE_11: u32 = 1 << 11;

const DEGREE_13: u32 = 1 << 13;

// All that a suffix names of a rooted set. All are sets, with a bit for each member: one writer
// serves them. `nine` is the 9 among the adds that goes behind the `6`; `third` is the 3 that sus adds last.
#[derive(Clone, Copy)]
pub struct Descriptor {
    pub set: u32,
    pub intervals: u32,
    pub quality: ChordQuality,
    pub sus: bool,
    pub modifier: Option<Interval>,
    pub alterations: u32,
    pub adds: u32,
    pub nine: u32,
    pub third: u32,
    pub omits: u32,
}

// What the extensions become: the last that is stacked, the adds, and of these the 9 behind the `6`.
#[derive(Clone, Copy)]
pub struct Split {
    pub modifier: Option<Interval>,
    pub adds: u32,
    pub nine: u32,
}

// The intervals within a mask; a major sixth becomes 13.
fn within(intervals: u32, mask: u32) -> u32
    ensures { result ≡ extensions_from intervals mask }
{
    let found = intervals & mask;
    found & !MAJOR_SIXTH | found / MAJOR_SIXTH % 2 * THIRTEENTH
}

// The extensions, present or not, up to whose degree a member of a stack is not among the degrees of what is named.
fn unstacked(named: u32, own: u32, stack: u32) -> u32
    ensures { result ≡ unstacked_from named own stack }
{
    let degrees = own
        | named / MAJOR_SEVENTH % 2 * DEGREE_7
        | (named / FLAT_NINTH | named / NINTH | named / SHARP_NINTH) % 2 * DEGREE_9
        | (named / ELEVENTH | named / SHARP_ELEVENTH) % 2 * DEGREE_11
        | (named / FLAT_THIRTEENTH | named / THIRTEENTH) % 2 * DEGREE_13;
    let missing = stack & !degrees;
    let up_to_9 = missing / DEGREE_7 | missing / DEGREE_9;
    let up_to_11 = up_to_9 | missing / DEGREE_11;
    let up_to_13 = up_to_11 | missing / DEGREE_13;
    up_to_9 % 2 * NINTH | up_to_11 % 2 * ELEVENTH | up_to_13 % 2 * THIRTEENTH
}

// The last of the extensions that are stacked: 13, or else 11, or else 9.
fn modifier(diminished: bool, extensions: u32, unstacked: u32) -> Option<Interval>
    ensures { result ≡ modifier_from diminished extensions unstacked }
{
    if diminished {
        return None;
    }
    let stacked = extensions & !(unstacked | MAJOR_SEVENTH);
    if stacked >= THIRTEENTH {
        return Some(Interval::Thirteenth);
    }
    if stacked >= ELEVENTH {
        return Some(Interval::Eleventh);
    }
    if stacked >= NINTH {
        return Some(Interval::Ninth);
    }
    None
}

// No quality is made of class 2 or 5: of the extensions only a 13 can be its own.
fn adds(diminished: bool, extensions: u32, unstacked: u32, own: u32) -> u32
    ensures { result ≡ adds_from diminished extensions unstacked own }
{
    if diminished {
        return extensions;
    }
    extensions & (unstacked & !(own / CLASS_9 % 2 * THIRTEENTH) | MAJOR_SEVENTH)
}

// This and those below are a function for each rule: one for two of them would take a mask and name neither.
// The 9 among the adds of Maj6 or Mi6, which goes in behind the `6`.
fn nine_behind_six(sixth: bool, adds: u32) -> u32
    ensures { result ≡ nine_from sixth adds }
{
    if sixth {
        return adds & NINTH;
    }
    0
}

// For both diminished qualities every extension is an add. Of the others one is the modifier where every member of the stack up to its degree
// is there, the last of several, and an add where not, unless its class is the quality's own.
fn split_extensions(quality: ChordQuality, alterations: u32, extensions: u32) -> Split
    ensures { Splits quality alterations extensions result.modifier result.adds result.nine }
{
    let kind = kind_of(quality);
    let missed = unstacked(alterations | extensions, kind.2, quality.extension_stack());
    let added = adds(kind.4, extensions, missed, quality.self_mask());
    Split {
        modifier: modifier(kind.4, extensions, missed),
        adds: added,
        nine: nine_behind_six(kind.3, added),
    }
}

// Under sus a present major third.
fn last_add(sus: bool, intervals: u32) -> u32
    ensures { result ≡ last_from sus intervals }
{
    if sus {
        return intervals & MAJOR_THIRD;
    }
    0
}

// Neither third, and not sus: without class 3, that is without class 5.
fn omitted_third(set: u32) -> u32
    ensures { result ≡ omitted_third_from set }
{
    if set & (CLASS_3 | CLASS_4 | CLASS_5) == 0 {
        return MAJOR_THIRD;
    }
    0
}

fn omitted_fifth(intervals: u32) -> u32
    ensures { result ≡ omitted_fifth_from intervals }
{
    if intervals & (FIFTHS | FLAT_THIRTEENTH) == 0 {
        return PERFECT_FIFTH;
    }
    0
}

// All that a suffix names of a rooted set, read off it once. Inlined, so that it stays in registers: it has several callers.
#[inline(always)]
pub fn describe(set: u32) -> Result<Descriptor, Refusal>
    ensures { result ≡ descriptor_answer set }
{
    let quality = shown_quality(Rooted::new(set)?);
    let found = intervals(set);
    let alterations = found & quality.alteration_mask();
    let extensions = within(found, quality.extension_mask());
    let split = split_extensions(quality, alterations, extensions);
    let modifier = split.modifier;
    let sus = set & (CLASS_3 | CLASS_5) == CLASS_5;
    Ok(Descriptor {
        set,
        intervals: found,
        quality,
        sus,
        modifier,
        alterations,
        adds: split.adds,
        nine: split.nine,
        third: last_add(sus, found),
        omits: omitted_third(set) | omitted_fifth(found),
    })
}
