// Chord symbols, as C calls them.
ghost use Rattle.std.specs.Prelude.{◌≡◌, pos};
ghost use Rattle.answer.specs.Replies.{text};
ghost use Rattle.intervals.specs.Sets.{class_count};
ghost use Rattle.rules.specs.Suffix.{suffix_reply};
ghost use Rattle.candidates.specs.Keys.{class_set};
ghost use Rattle.candidates.specs.Candidates.{flats, sharps, candidate_at, candidates_of};
ghost use Rattle.strict.specs.Strict.{strict_reply};
ghost use Rattle.listing.specs.Listing.{listing_of};
ghost use Rattle.spelling.specs.Tones.{spelled_by, tones_reply};
ghost use Rattle.signatures.specs.Part.{part_of};
ghost use Rattle.host.specs.Numbers.{candidate_number};
ghost use Rattle.hemotusap.specs.Host.{HostAnswered, PartTold};

use hemotusap::symbols;

#[unsafe(no_mangle)]
pub extern "C" fn hemotusap_suffix(set: u32, out: &mut [u8]) -> i64
    ensures { HostAnswered (suffix_reply set) out.old result out.new }
{
    symbols::hemotusap_suffix(set, out)
}

#[unsafe(no_mangle)]
pub extern "C" fn hemotusap_listing(name: &[u8], out: &mut [u8]) -> i64
    ensures { HostAnswered (text (listing_of name.now)) out.old result out.new }
{
    symbols::hemotusap_listing(name, out)
}

#[unsafe(no_mangle)]
pub extern "C" fn hemotusap_tones(root: u32, set: u32, out: &mut [u8]) -> i64
    ensures { HostAnswered (tones_reply spelled_by root set) out.old result out.new }
{
    symbols::hemotusap_tones(root, set, out)
}

#[unsafe(no_mangle)]
pub extern "C" fn hemotusap_candidates(codes: &[u8], out: &mut [u8]) -> i64
    ensures { HostAnswered (text (candidates_of flats codes.now)) out.old result out.new }
{
    symbols::hemotusap_candidates(codes, out)
}

#[unsafe(no_mangle)]
pub extern "C" fn hemotusap_candidates_strict(codes: &[u8], out: &mut [u8]) -> i64
    ensures { HostAnswered (strict_reply flats codes.now) out.old result out.new }
{
    symbols::hemotusap_candidates_strict(codes, out)
}

#[unsafe(no_mangle)]
pub extern "C" fn hemotusap_candidates_sharp(codes: &[u8], out: &mut [u8]) -> i64
    ensures { HostAnswered (text (candidates_of sharps codes.now)) out.old result out.new }
{
    symbols::hemotusap_candidates_sharp(codes, out)
}

#[unsafe(no_mangle)]
pub extern "C" fn hemotusap_candidates_strict_sharp(codes: &[u8], out: &mut [u8]) -> i64
    ensures { HostAnswered (strict_reply sharps codes.now) out.old result out.new }
{
    symbols::hemotusap_candidates_strict_sharp(codes, out)
}

#[unsafe(no_mangle)]
pub extern "C" fn hemotusap_candidate_line<'a>(
    flat: &'a [u8],
    sharp: &'a [u8],
    number: u32,
    fifths: i32,
    start: &mut u64,
    length: &mut u64,
) -> i64
    ensures { PartTold (part_of flat.now sharp.now number fifths) result start.new length.new }
{
    symbols::hemotusap_candidate_line(flat, sharp, number, fifths, start, length)
}

#[unsafe(no_mangle)]
pub extern "C" fn hemotusap_candidate_count(codes: &[u8]) -> i64
    ensures { result ≡ pos (class_count (class_set codes.now)) }
{
    symbols::hemotusap_candidate_count(codes)
}

#[unsafe(no_mangle)]
pub extern "C" fn hemotusap_candidate(codes: &[u8], number: u32) -> i64
    ensures { result ≡ candidate_number (candidate_at codes.now number) }
{
    symbols::hemotusap_candidate(codes, number)
}
