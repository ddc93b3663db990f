// How an answer is written into the range that a caller lends: whole or not at all.
ghost use Rattle.answer.specs.Replies.{text, Answered};

use crate::refusal::Refusal;

// Writes the whole of `from` to the front of `out`, and returns the count of bytes written; or refuses where there is no room for it.
pub fn give(from: &[u8], out: &mut [u8]) -> Result<usize, Refusal>
    ensures { Answered (text from.now) out.old result out.new }
{
    if out.len() < from.len() {
        return Err(Refusal::NoRoom);
    }
    out[..from.len()].copy_from_slice(from);
    Ok(from.len())
}
