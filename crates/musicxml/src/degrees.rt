// The degrees of an element: an `add` for each interval outside the kind, and a `subtract` for each of its tones that doesn't sound.
ghost use Rattle.std.specs.Prelude.{map, ◌%◌, ◌<◌, ◌^◌};
ghost use Rattle.rules.specs.Classes.{intervals_in};
ghost use Rattle.harmonies.specs.Kinds.{add_of};
ghost use Rattle.harmonies.specs.Harmony.{degrees};
ghost use Rattle.harmonies.specs.Xml.{written};
ghost use Rattle.musicxml.specs.private.Texts.{Adds};
ghost use Rattle.musicxml.specs.private.Degrees.{degree_text, IsRow, subtract_where};

use crate::element::Element;
use descriptors::members::Members;
use intervals::interval::Interval;

// A degree's value and alter.
#[derive(Clone, Copy)]
struct Row(&'static [u8], &'static [u8]);

// Adds an `add` for each interval of a set, from the lowest up.
pub(crate) fn push_adds(element: &mut Element, set: u32)
    ensures { Adds element.old (written (degrees (map add_of (intervals_in (set % 2 ^ 23))))) element.new }
{
    for interval in Members::of(set) {
        let row = add_row(interval);
        push_degree(element, row.0, row.1, b"add</degree-type></degree>");
    }
}

// A `subtract` on a degree, unless the class of the kind's tone there sounds.
pub(crate) fn push_subtract(element: &mut Element, set: u32, class: u32, value: &[u8])
    requires { class < 12 }
    ensures { Adds element.old (subtract_where set class value.now) element.new }
{
    if (set >> class) % 2 == 0 {
        push_degree(element, value, b"0", b"subtract</degree-type></degree>");
    }
}

// A degree, with its type and what follows it in one text. In two texts, or not inlined, an element takes longer than before (measured).
#[inline(always)]
fn push_degree(element: &mut Element, value: &[u8], alter: &[u8], end: &[u8])
    ensures { Adds element.old (degree_text value.now alter.now end.now) element.new }
{
    element.push_bytes(b"<degree><degree-value>");
    element.push_bytes(value);
    element.push_bytes(b"</degree-value><degree-alter>");
    element.push_bytes(alter);
    element.push_bytes(b"</degree-alter><degree-type>");
    element.push_bytes(end);
}

// An interval's degree by `to_degree`, and how far it is from that of a dominant chord.
fn add_row(interval: Interval) -> Row
    ensures { IsRow (add_of interval) result }
{
    match interval {
        Interval::Unison => Row(b"1", b"0"),
        Interval::MinorSecond => Row(b"2", b"-1"),
        Interval::MajorSecond => Row(b"2", b"0"),
        Interval::MinorThird => Row(b"3", b"-1"),
        Interval::MajorThird => Row(b"3", b"0"),
        Interval::PerfectFourth => Row(b"4", b"0"),
        Interval::AugmentedFourth => Row(b"4", b"1"),
        Interval::DiminishedFifth => Row(b"5", b"-1"),
        Interval::PerfectFifth => Row(b"5", b"0"),
        Interval::AugmentedFifth => Row(b"5", b"1"),
        Interval::MinorSixth => Row(b"6", b"-1"),
        Interval::MajorSixth => Row(b"6", b"0"),
        Interval::DiminishedSeventh => Row(b"7", b"-1"),
        Interval::MinorSeventh => Row(b"7", b"0"),
        Interval::MajorSeventh => Row(b"7", b"1"),
        Interval::Octave => Row(b"1", b"12"),
        Interval::FlatNinth => Row(b"9", b"-1"),
        Interval::Ninth => Row(b"9", b"0"),
        Interval::SharpNinth => Row(b"9", b"1"),
        Interval::Eleventh => Row(b"11", b"0"),
        Interval::SharpEleventh => Row(b"11", b"1"),
        Interval::FlatThirteenth => Row(b"13", b"-1"),
        Interval::Thirteenth => Row(b"13", b"0"),
    }
}
