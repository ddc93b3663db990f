// The `harmony` element of a rooted set on a root class, over a bass class or none.
ghost use Rattle.std.specs.Prelude.{◌<◌};
ghost use Rattle.answer.specs.Replies.{Answered};
ghost use Rattle.harmonies.specs.Harmony.{flats};
ghost use Rattle.musicxml.specs.Replies.{harmony_reply};
ghost use Rattle.musicxml.specs.private.Pitches.{pitch_text};
ghost use Rattle.musicxml.specs.private.Texts.{Adds};

use crate::degrees::{push_adds, push_subtract};
use crate::element::Element;
use crate::kinds::Kind;
use answer::refusal::Refusal;
use descriptors::classes::intervals;
use descriptors::showing::shown;
use intervals::bass::is_bass;
use intervals::set::LAST_CLASS;
use names::table::{Names, class_name};

// What stands before a class's step and behind it, for a flat, and at the end.
#[derive(Clone, Copy)]
struct Around {
    before: &'static [u8],
    step: &'static [u8],
    alter: &'static [u8],
    end: &'static [u8],
}

const ROOT: Around = Around {
    before: b"<harmony><root><root-step>",
    step: b"</root-step>",
    alter: b"<root-alter>-1</root-alter>",
    end: b"</root><kind>",
};

const BASS: Around = Around {
    before: b"<bass><bass-step>",
    step: b"</bass-step>",
    alter: b"<bass-alter>-1</bass-alter>",
    end: b"</bass>",
};

// The element, written to the front of `out`. A kind's sixth or seventh always sounds, so that only its third and fifth are subtracted.
pub fn harmony(root: u32, bass: Option<u32>, set: u32, out: &mut [u8]) -> Result<usize, Refusal>
    ensures { Answered (harmony_reply flats root bass set) out.old result out.new }
{
    let kind = Kind::of(shown(set)?);
    if !((root <= LAST_CLASS) & is_bass(bass)) {
        return Err(Refusal::BadClass);
    }
    let mut element = Element::new();
    push_pitch(&mut element, root, ROOT);
    element.push_bytes(kind.name);
    element.push_bytes(b"</kind>");
    if let Some(class) = bass {
        push_pitch(&mut element, class, BASS);
    }
    push_adds(&mut element, kind.outside & intervals(set));
    push_subtract(&mut element, set, kind.third, b"3");
    push_subtract(&mut element, set, kind.fifth, b"5");
    element.push_bytes(b"</harmony>");
    element.give(out)
}

// A class as step and alter, off the word of its name, which is there: one of two bytes has a flat. Inlined, so that its texts are constants: of others
// LLVM copies with `memmove`, which the archive does not take.
#[inline(always)]
fn push_pitch(element: &mut Element, class: u32, around: Around)
    requires { class < 12 }
    ensures { Adds element.old (pitch_text class around) element.new }
{
    let name = class_name(Names::Flats, class);
    element.push_bytes(around.before);
    element.push_bytes(&[(name % 0x100) as u8]);
    element.push_bytes(around.step);
    if name >> 56 == 2 {
        element.push_bytes(around.alter);
    }
    element.push_bytes(around.end);
}
