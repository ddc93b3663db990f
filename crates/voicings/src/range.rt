// The range of keys that a voicing keeps to above its bass.
ghost use Rattle.std.specs.Prelude.{◌≡◌};
ghost use Rattle.voicings.specs.Range.{is_range};

// For callers that name no range: Eb2 to G4.
pub const LOWEST: u32 = 51;

pub const HIGHEST: u32 = 79;

// The last key of MIDI 1.0.
const LAST_KEY: u32 = 127;

// The most keys of a voicing: two bass keys, sixteen guides, sixteen tensions and the lead.
pub(crate) const ROOM: usize = 35;

pub(crate) fn is_range(lowest: u32, highest: u32) -> bool
    ensures { result ≡ is_range lowest highest }
{
    (lowest <= highest) & (highest <= LAST_KEY)
}
