// The key of a tone that is nearest to a wanted one.
ghost use Rattle.std.specs.Prelude.{◌≡◌, ◌⊎◌, ◌+◌, ◌-◌, ◌*◌, ◌≤◌, ◌<◌};
ghost use Rattle.keys.specs.Choice.{distance};
ghost use Rattle.keys.specs.private.Ranked.{first_key, nothing, nearest_of};

use pool::pool::Tone;

// Each class has a key from here on, up by octaves, and none below: C2.
pub const OCTAVE_KEY: u32 = 48;

// The keys from a lowest one on and below a limit.
#[derive(Clone, Copy)]
pub struct Span {
    pub lowest: u8,
    pub limit: u8,
}

// A key that a tone offers, how far it is from the one wanted, and the interval that leaves with it. No offer is one of `NO_RANK`: with
// an `Option` the search for the best takes half as long again.
#[derive(Clone, Copy)]
pub struct Offer {
    pub rank: u8,
    pub key: u8,
    pub interval: u8,
}

// The rank of no offer: no key below a limit is as far from another.
pub const NO_RANK: u8 = 255;

pub fn nothing(interval: u8) -> Offer
    ensures { result ≡ nothing interval }
{
    Offer {
        rank: NO_RANK,
        key: 0,
        interval,
    }
}

// The lowest key of a class that is not below the range: its own, or one as many octaves up as it takes. One is enough where a range begins
// at C3 or below, and takes no quotient.
fn first_key(class: u8, lowest: u8) -> u32
    ensures { result ≡ first_key lowest class }
{
    let key = OCTAVE_KEY + u32::from(class);
    let low = u32::from(lowest);
    let near = key + u32::from(key < low) * 12;
    if low <= near {
        return near;
    }
    key + (low - key + 11) / 12 * 12
}

// How many octaves above the lowest key the nearest is: the next is nearer as long as the wanted one is beyond half the way to it. In
// one go, as the climb itself ends where nobody can foretell. No guide wants a key above the lowest, and none takes a quotient.
fn octaves(first: u32, wanted: u8, limit: u8) -> u32
    requires { first < limit }
    ensures { (first + 12 * result < limit) × (12 * result ≤ wanted - first + 5) × ((limit ≤ first + 12 * result + 12) ⊎ (wanted ≤ first + 12 * result + 6)) }
{
    let wanted = u32::from(wanted);
    if wanted <= first {
        return 0;
    }
    let top = (u32::from(limit) - 1 - first) / 12;
    let up = (wanted - first + 5) / 12;
    up.min(top)
}

pub fn distance(a: u8, b: u8) -> u8
    ensures { result ≡ distance a b }
{
    a.abs_diff(b)
}

// What a tone offers: of its keys in a span, the one nearest to the wanted.
pub fn nearest(tone: Tone, wanted: u8, span: Span) -> Offer
    ensures { result ≡ nearest_of span.lowest span.limit wanted tone }
{
    let first = first_key(tone.class, span.lowest);
    if first >= u32::from(span.limit) {
        return nothing(tone.interval);
    }
    let key = (first + 12 * octaves(first, wanted, span.limit)) as u8;
    Offer {
        rank: distance(wanted, key),
        key,
        interval: tone.interval,
    }
}
