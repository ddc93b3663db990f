// The kinds of MusicXML: one table, a row for each quality.
ghost use Rattle.musicxml.specs.private.Kinds.{IsKind};

use qualities::quality::ChordQuality;

// A kind's name, the classes of its third and fifth, and the intervals whose class is no tone of it, a bit for each one's number.
#[derive(Clone, Copy)]
pub(crate) struct Kind {
    pub name: &'static [u8],
    pub third: u32,
    pub fifth: u32,
    pub outside: u32,
}

impl Kind {
    // No rooted set shows the last two qualities: they are `major` too.
    pub(crate) fn of(quality: ChordQuality) -> Self
        ensures { IsKind quality result }
    {
        match quality {
            ChordQuality::Maj | ChordQuality::Power | ChordQuality::Bass => Kind {
                name: b"major",
                third: 4,
                fifth: 7,
                outside: 0x7f7eee,
            },
            ChordQuality::Maj6 => Kind {
                name: b"major-sixth",
                third: 4,
                fifth: 7,
                outside: 0x3f66ee,
            },
            ChordQuality::Maj7 => Kind {
                name: b"major-seventh",
                third: 4,
                fifth: 7,
                outside: 0x7f3eee,
            },
            ChordQuality::Dominant7 => Kind {
                name: b"dominant",
                third: 4,
                fifth: 7,
                outside: 0x7f5eee,
            },
            ChordQuality::Mi => Kind {
                name: b"minor",
                third: 3,
                fifth: 7,
                outside: 0x7b7ef6,
            },
            ChordQuality::Mi6 => Kind {
                name: b"minor-sixth",
                third: 3,
                fifth: 7,
                outside: 0x3b66f6,
            },
            ChordQuality::Mi7 => Kind {
                name: b"minor-seventh",
                third: 3,
                fifth: 7,
                outside: 0x7b5ef6,
            },
            ChordQuality::MiMaj7 => Kind {
                name: b"major-minor",
                third: 3,
                fifth: 7,
                outside: 0x7b3ef6,
            },
            ChordQuality::Augmented => Kind {
                name: b"augmented",
                third: 4,
                fifth: 8,
                outside: 0x5f79ee,
            },
            ChordQuality::Diminished => Kind {
                name: b"diminished",
                third: 3,
                fifth: 6,
                outside: 0x6b7f36,
            },
            ChordQuality::Diminished7 => Kind {
                name: b"diminished-seventh",
                third: 3,
                fifth: 6,
                outside: 0x2b6736,
            },
        }
    }
}
