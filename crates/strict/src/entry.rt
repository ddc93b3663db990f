// The check of a list of codes, and the entry behind it.
ghost use Rattle.std.specs.Prelude.{◌≡◌};
ghost use Rattle.std.specs.List.{position};
ghost use Rattle.answer.specs.Replies.{Answered};
ghost use Rattle.names.specs.Names.{flats, table_of};
ghost use Rattle.strict.specs.Strict.{is_key, is_no_key, keys_checked, strict_reply};

use answer::refusal::Refusal;
use candidates::lines::candidates_in;
use names::table::Names;

const LAST_KEY: u8 = 127;

fn is_key(code: u8) -> bool
    ensures { result ≡ is_key code }
{
    code <= LAST_KEY
}

// The place of the first code that is no key.
fn first_no_key(codes: &[u8]) -> Option<usize>
    ensures { result ≡ position is_no_key codes.now }
{
    codes.iter().position(|&code| !is_key(code))
}

// The first code that is no key is refused, with its position.
pub fn check_keys(codes: &[u8]) -> Result<(), Refusal>
    ensures { result ≡ keys_checked codes.now }
{
    match first_no_key(codes) {
        Some(place) => Err(Refusal::NotAKey(place)),
        None => Ok(()),
    }
}

// The candidates of a list of keys, a line each, where every code is one, with the names that are asked for.
pub fn candidates_strict_in(names: Names, codes: &[u8], out: &mut [u8]) -> Result<usize, Refusal>
    ensures { Answered (strict_reply (table_of names) codes.now) out.old result out.new }
{
    check_keys(codes)?;
    candidates_in(names, codes, out)
}

// The same with the flat names. It stays a function of its own: `hemotusap_candidates_strict` promises it.
pub fn candidates_strict(codes: &[u8], out: &mut [u8]) -> Result<usize, Refusal>
    ensures { Answered (strict_reply flats codes.now) out.old result out.new }
{
    candidates_strict_in(Names::Flats, codes, out)
}
