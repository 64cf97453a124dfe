//! The numbers in the payload of a commit sector.
ghost use Rattle.std.specs.Prelude.{◌≡◌, ◌≤◌, ◌<◌, ◌+◌, ◌/◌, length};
ghost use Rattle.std.specs.Bool.{OnTrue, OnFalse};
ghost use Rattle.ipl_format.specs.Numbers.{long_at};
ghost use Rattle.ipl_meaning.specs.First.{greatest_of};
ghost use Rattle.ipl_meaning.specs.Payloads.{is_commit_payload, numbers_in};
ghost use Rattle.number_set.specs.Numbers.{with_list, with_numbers};
ghost use Rattle.txn_status.specs.ReadingIn.{GrowsBy};

use ipl_format::long_at;
use number_set::NumberSet;

/// Whether the payload is 1 to 60 numbers of eight bytes, with nothing left over.
pub(crate) fn is_commit(payload: &[u8]) -> bool
    ensures { result ≡ is_commit_payload payload.now }
{
    payload.len() % 8 == 0 && 1 <= payload.len() / 8 && payload.len() / 8 <= 60
}

/// The number in the first eight bytes.
fn first_number(bytes: &[u8]) -> u64
    requires { 8 ≤ length bytes.now }
    ensures { result ≡ long_at 0 bytes.now }
{
    long_at(bytes, 0)
}

/// The greatest of the numbers in a payload and this one.
pub(crate) fn greatest_number(payload: &[u8], least: u64) -> u64
    ensures { result ≡ greatest_of least (numbers_in payload.now) }
{
    let mut greatest = least;
    for i in 0..payload.len() / 8 {
        greatest = greatest.max(first_number(&payload[8 * i..]));
    }
    greatest
}

/// Adds the numbers in a payload. False exactly where they don't all have room, and then some of them
/// may be there.
pub fn add_numbers(payload: &[u8], numbers: &mut NumberSet) -> bool
    ensures numbers { OnTrue result (numbers.new
        ≡ with_list numbers.old (with_numbers (numbers_in payload.now) numbers.old.list)) }
    ensures many { OnFalse result (numbers.old.most
        < length (with_numbers (numbers_in payload.now) numbers.old.list)) }
    ensures near { OnFalse result (numbers.old.most
        < length numbers.old.list + length payload.now / 8) }
    ensures grows { GrowsBy (length payload.now / 8) numbers.old numbers.new }
{
    for i in 0..payload.len() / 8 {
        if !numbers.add_within(first_number(&payload[8 * i..])) {
            return false;
        }
    }
    true
}
