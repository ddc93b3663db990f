// Which of two listings a key signature calls for, and a candidate's line in it.
ghost use Rattle.std.specs.Prelude.{◌≡◌};
ghost use Rattle.signatures.specs.Signature.{names_in};
ghost use Rattle.signatures.specs.Part.{listing_in, part_found, part_of, PartOf};

use crate::found::line_in;
use names::table::Names;

const MOST_FLATS: i32 = -7;

const MOST_SHARPS: i32 = 7;

// A part of the listing that has these names: its first byte, and how many it has.
#[derive(Clone, Copy)]
pub struct Part {
    pub names: Names,
    pub start: usize,
    pub length: usize,
}

// Sharp names in keys of sharps, and flat ones in all others.
fn names_in(fifths: i32) -> Option<Names>
    ensures { result ≡ names_in fifths }
{
    if fifths < MOST_FLATS || fifths > MOST_SHARPS {
        return None;
    }
    if fifths > 0 {
        return Some(Names::Sharps);
    }
    Some(Names::Flats)
}

// Two listings of one list of keys: with flat names, and with sharp ones.
#[derive(Clone, Copy)]
pub struct Listings<'a> {
    pub flat: &'a [u8],
    pub sharp: &'a [u8],
}

impl<'a> Listings<'a> {
    // The one with these names.
    fn of(self, names: Names) -> &'a [u8]
        ensures { result ≡ listing_in names self.entry.flat self.entry.sharp }
    {
        match names {
            Names::Flats => self.flat,
            Names::Sharps => self.sharp,
        }
    }

    // A candidate's line in the names that the key calls for, where the key is one and the candidate is listed.
    fn found(self, number: u32, fifths: i32) -> Option<Part>
        ensures { result ≡ part_found self.entry.flat.now self.entry.sharp.now number fifths }
    {
        let names = names_in(fifths)?;
        let (start, length) = line_in(self.of(names), number)?;
        Some(Part {
            names,
            start,
            length,
        })
    }

    // Where a candidate's line stands; where there is none, the empty part at the end of the flat listing, and no Option: `part_of` is what the
    // boundary promises.
    pub fn line_part(self, number: u32, fifths: i32) -> Part
        ensures { result ≡ part_of self.entry.flat.now self.entry.sharp.now number fifths }
    {
        self.found(number, fifths).unwrap_or(Part {
            names: Names::Flats,
            start: self.flat.len(),
            length: 0,
        })
    }

    // The line itself, in the caller's own memory.
    pub fn line(self, number: u32, fifths: i32) -> &'a [u8]
        ensures { PartOf (part_of self.entry.flat.now self.entry.sharp.now number fifths) self.entry.flat self.entry.sharp result }
    {
        let part = self.line_part(number, fifths);
        &self.of(part.names)[part.start..part.start + part.length]
    }
}
