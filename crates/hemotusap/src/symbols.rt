// Chord symbols for the host: the suffix of a set, the sets of a suffix, the candidates of a list of keys, spelled tones.
ghost use Rattle.std.specs.Prelude.{◌≡◌, pos};
ghost use Rattle.answer.specs.Replies.{text};
ghost use Rattle.intervals.specs.Sets.{class_count};
ghost use Rattle.rules.specs.Suffix.{suffix_reply};
ghost use Rattle.candidates.specs.Keys.{class_set};
ghost use Rattle.candidates.specs.Candidates.{flats, sharps, candidate_at, candidates_of};
ghost use Rattle.strict.specs.Strict.{strict_reply};
ghost use Rattle.listing.specs.Listing.{listing_of};
ghost use Rattle.spelling.specs.Tones.{spelled_by, tones_reply};
ghost use Rattle.signatures.specs.Part.{part_of};
ghost use Rattle.host.specs.Numbers.{candidate_number};
ghost use Rattle.hemotusap.specs.Host.{HostAnswered, PartTold};

use crate::outputs::written;
use candidates::lines::{candidate_count, candidates, candidates_in};
use candidates::numbered::candidate;
use host::numbers::{candidate_number, names_number};
use inference::normalize::suffix;
use listing::search::listing;
use names::table::Names;
use signatures::line::Listings;
use spelling::tones::tones;
use strict::entry::{candidates_strict, candidates_strict_in};

pub fn hemotusap_suffix(set: u32, out: &mut [u8]) -> i64
    ensures { HostAnswered (suffix_reply set) out.old result out.new }
{
    written(suffix(set, out))
}

pub fn hemotusap_listing(name: &[u8], out: &mut [u8]) -> i64
    ensures { HostAnswered (text (listing_of name.now)) out.old result out.new }
{
    written(listing(name, out))
}

pub fn hemotusap_tones(root: u32, set: u32, out: &mut [u8]) -> i64
    ensures { HostAnswered (tones_reply spelled_by root set) out.old result out.new }
{
    written(tones(root, set, out))
}

pub fn hemotusap_candidates(codes: &[u8], out: &mut [u8]) -> i64
    ensures { HostAnswered (text (candidates_of flats codes.now)) out.old result out.new }
{
    written(candidates(codes, out))
}

pub fn hemotusap_candidates_strict(codes: &[u8], out: &mut [u8]) -> i64
    ensures { HostAnswered (strict_reply flats codes.now) out.old result out.new }
{
    written(candidates_strict(codes, out))
}

pub fn hemotusap_candidates_sharp(codes: &[u8], out: &mut [u8]) -> i64
    ensures { HostAnswered (text (candidates_of sharps codes.now)) out.old result out.new }
{
    written(candidates_in(Names::Sharps, codes, out))
}

pub fn hemotusap_candidates_strict_sharp(codes: &[u8], out: &mut [u8]) -> i64
    ensures { HostAnswered (strict_reply sharps codes.now) out.old result out.new }
{
    written(candidates_strict_in(Names::Sharps, codes, out))
}

pub fn hemotusap_candidate_line<'a>(
    flat: &'a [u8],
    sharp: &'a [u8],
    number: u32,
    fifths: i32,
    start: &mut u64,
    length: &mut u64,
) -> i64
    ensures { PartTold (part_of flat.now sharp.now number fifths) result start.new length.new }
{
    let part = Listings { flat, sharp }.line_part(number, fifths);
    *start = part.start as u64;
    *length = part.length as u64;
    names_number(part.names)
}

pub fn hemotusap_candidate_count(codes: &[u8]) -> i64
    ensures { result ≡ pos (class_count (class_set codes.now)) }
{
    i64::from(candidate_count(codes))
}

pub fn hemotusap_candidate(codes: &[u8], number: u32) -> i64
    ensures { result ≡ candidate_number (candidate_at codes.now number) }
{
    candidate_number(candidate(codes, number))
}
