//! What a sector's bytes say.
ghost use Rattle.std.specs.Prelude.{◌≡◌, ◌≢◌, drop};
ghost use Rattle.chip_trait.specs.Story.{blank};
ghost use Rattle.crc_sum.specs.Crc.{tail_sum};
ghost use Rattle.ipl_format.specs.Sector.{sector_in};
ghost use Rattle.sector_format.specs.Decode.{IsDecoded, sector_read};

use crate::Decoded;
use crate::reading::{head_in, is_erased, is_formed, sum_by, tail_of, used_length};
use ipl_format::word_at;

// What a sector's bytes are, where they aren't erased.
fn decode_written(bytes: &[u8; 512], tail: u32) -> Decoded
    requires tail { tail ≡ tail_sum (drop 32 bytes.now) }
    requires written { bytes.now ≢ blank }
    ensures sector { sector_in bytes.now ≡ sector_read bytes.now result }
    ensures decoded { IsDecoded bytes.now result }
{
    let stored = word_at(bytes, 28);
    let computed = sum_by(bytes, tail);
    if stored != computed {
        return Decoded::Bad { stored, computed };
    }
    if !is_formed(bytes) {
        return Decoded::Strange;
    }
    Decoded::Sector(head_in(bytes), used_length(bytes))
}

/// What a sector's bytes are, as `decode` says it, where what those behind the head bring into the
/// sum was taken before.
pub fn decode_by(bytes: &[u8; 512], tail: u32) -> Decoded
    requires { tail ≡ tail_sum (drop 32 bytes.now) }
    ensures sector { sector_in bytes.now ≡ sector_read bytes.now result }
    ensures decoded { IsDecoded bytes.now result }
{
    if is_erased(bytes) {
        return Decoded::Erased;
    }
    decode_written(bytes, tail)
}

/// What a sector's bytes are: erased, where all of them are FF; else bad, where the sums differ; else strange, where
/// another rule of the format is broken; else a sector.
pub fn decode(bytes: &[u8; 512]) -> Decoded
    ensures sector { sector_in bytes.now ≡ sector_read bytes.now result }
    ensures decoded { IsDecoded bytes.now result }
{
    // What is erased isn't summed.
    if is_erased(bytes) {
        return Decoded::Erased;
    }
    decode_written(bytes, tail_of(bytes))
}
