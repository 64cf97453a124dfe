//! The parts of a sector, as its bytes have them.
ghost use Rattle.std.specs.Prelude.{◌≡◌, ◌≤◌, ◌+◌, ◌↔◌, IsTrue, bit_or, drop, fold, length, replicate, take};
ghost use Rattle.std.specs.List.{list_all};
ghost use Rattle.ipl_base.specs.declared.limits.TheConstants.{PAYLOAD_LEN};
ghost use Rattle.chip_trait.specs.Story.{blank};
ghost use Rattle.crc_sum.specs.Crc.{tail_sum};
ghost use Rattle.ipl_format.specs.Sector.{computed_sum, is_formed, has_magic, is_zero, used_length};
ghost use Rattle.sector_format.specs.Decode.{head_in};

use crate::Head;
use crc_sum::{crc32_before, crc32_tail};
use ipl_base::{PAYLOAD_LEN, VERSION};
use ipl_format::{half_at, long_at, word_at};

/// The payload of a sector that uses so many bytes of it, 0 to 480.
pub fn payload_in(bytes: &[u8; 512], used: usize) -> &[u8]
    requires { used ≤ PAYLOAD_LEN }
    ensures payload { result.now ≡ take used (drop 32 bytes.now) }
    ensures size { length result.now ≡ used }
{
    &bytes[32..32 + used]
}

/// What the bytes behind the head bring into the sum of a sector, whatever its head is.
pub fn tail_of(bytes: &[u8; 512]) -> u32
    ensures { result ≡ tail_sum (drop 32 bytes.now) }
{
    crc32_tail(&bytes[32..])
}

/// The sum of all bytes but those of the sum itself, 28..32, where those behind the head, 32..512,
/// bring in so much (see `tail_of`). It is the CRC-32 in docs/FORMAT.md, "The sector".
pub(crate) fn sum_by(bytes: &[u8; 512], tail: u32) -> u32
    requires { tail ≡ tail_sum (drop 32 bytes.now) }
    ensures { result ≡ computed_sum bytes.now }
{
    crc32_before(&bytes[..28], tail)
}

fn is_all(bytes: &[u8], byte: u8) -> bool
    ensures { IsTrue result ↔ (bytes.now ≡ replicate (length bytes.now) byte) }
{
    bytes.iter().all(|b| *b == byte)
}

/// Whether all 512 bytes are FF: the sector is erased then.
#[tactic(auto, unfolding(chip_trait::specs::Story::blank))]
pub(crate) fn is_erased(bytes: &[u8; 512]) -> bool
    ensures { IsTrue result ↔ (bytes.now ≡ blank) }
{
    is_all(bytes, 0xFF)
}

fn has_magic(bytes: &[u8; 512]) -> bool
    ensures { result ≡ has_magic bytes.now }
{
    bytes[0] == b'I' && bytes[1] == b'P' && bytes[2] == b'L' && bytes[3] == b'1'
}

/// The used length that stands in bytes 6..8, 0 to 65,535: it isn't tested here. The table is in
/// docs/FORMAT.md, "The sector".
pub(crate) fn used_length(bytes: &[u8; 512]) -> usize
    ensures { result ≡ used_length bytes.now }
{
    usize::from(half_at(bytes, 6))
}

// All bytes joined by an or: several are joined at once, where a test of each would end a step.
fn joined(bytes: &[u8]) -> u8
    ensures { result ≡ fold bit_or 0 bytes.now }
{
    bytes.iter().fold(0, |all, byte| all | *byte)
}

fn is_zero(bytes: &[u8]) -> bool
    ensures { result ≡ list_all is_zero bytes.now }
{
    joined(bytes) == 0
}

fn is_zero_from(bytes: &[u8; 512], start: usize) -> bool
    requires { start ≤ 512 }
    ensures { result ≡ list_all is_zero (drop start bytes.now) }
{
    is_zero(&bytes[start..])
}

/// Whether the bytes keep all rules of a sector but that of the sum: the marker, a kind of 1 to 7,
/// a version of 1 to 3, a used length of at most 480, and zeros after the used bytes. The table is
/// in docs/FORMAT.md, "The sector".
#[tactic(auto, unfolding(ipl_format::specs::Sector::is_formed))]
pub(crate) fn is_formed(bytes: &[u8; 512]) -> bool
    ensures { result ≡ is_formed bytes.now }
{
    let used = used_length(bytes);
    has_magic(bytes)
        && bytes[4] >= 1
        && bytes[4] <= 7
        && (bytes[5] >= 1 && bytes[5] <= VERSION)
        && used <= PAYLOAD_LEN
        && is_zero_from(bytes, 32 + used)
}

/// The head that stands in the bytes, each number as it is: none is tested here. The table is in
/// docs/FORMAT.md, "The sector".
pub(crate) fn head_in(bytes: &[u8; 512]) -> Head
    ensures { result ≡ head_in bytes.now }
{
    // What stands in a sector has its own version, whatever is written now.
    Head {
        kind: bytes[4],
        version: bytes[5],
        unit: word_at(bytes, 8),
        generation: long_at(bytes, 12),
        serial: long_at(bytes, 20),
    }
}
