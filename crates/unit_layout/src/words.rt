//! Numbers of four bytes in payloads, and how often a place was erased.
ghost use Rattle.std.specs.Prelude.{◌≡◌, ◌≤◌, ◌+◌, ◌++◌, take, length};
ghost use Rattle.ipl_format.specs.Numbers.{word};
ghost use Rattle.ipl_format.specs.Header.{erases_from};
ghost use Rattle.ipl_format.specs.Laws.{erases_size};
ghost use Rattle.unit_layout.specs.Header.{erases_at, SayErases};

use byteorder::{BigEndian, ByteOrder};
use ipl_base::VERSION;
use ipl_format::word_at;

/// Writes a number in four bytes, the highest first, from byte `at` on, for which `out` has room.
/// All other bytes stay.
#[tactic(auto, unfolding(ipl_format::specs::Numbers::word))]
pub(crate) fn write_word(number: u32, at: usize, out: &mut [u8])
    requires { at + 4 ≤ length out.old }
    ensures front { take (at + 4) out.new ≡ take at out.old ++ word number }
    ensures size { length out.new ≡ length out.old }
{
    BigEndian::write_u32(&mut out[at..at + 4], number);
}

/// How many bytes say in a version how often a place was erased.
pub(crate) fn erases_len(version: u8) -> usize
    ensures { result ≡ erases_size version }
{
    if version < VERSION { 0 } else { 4 }
}

/// How often a place was erased, from this place in its header's payload on; once before the
/// headers say it.
pub(crate) fn erases_at(payload: &[u8], at: usize, version: u8) -> u32
    requires { at + erases_size version ≤ length payload.now }
    ensures { result ≡ erases_at version at payload.now }
{
    if version < VERSION {
        return 1;
    }
    word_at(payload, at)
}

// Where the count stands in the payload of a header of this kind.
fn erases_from(kind: u8) -> usize
    ensures { result ≡ erases_from kind }
{
    if kind == 1 { 20 } else { 4 }
}

/// How often a place was erased, by the kind, the version and the payload of its header, whatever
/// else the payload holds; once where it has no room for the count, and where it isn't a header's.
pub fn erases_in(kind: u8, version: u8, payload: &[u8]) -> u32
    ensures { SayErases kind version payload.now result }
{
    if kind > 3 || version < VERSION {
        return 1;
    }
    let from = erases_from(kind);
    if payload.len() < from + 4 {
        return 1;
    }
    word_at(payload, from)
}
