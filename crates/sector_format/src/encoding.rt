//! The bytes of a sector.
ghost use Rattle.std.specs.Prelude.{◌≡◌, ◌≢◌, ◌≤◌, ◌+◌, ◌-◌, ◌++◌, Some, drop, length, replicate, take};
ghost use Rattle.ipl_base.specs.declared.limits.TheConstants.{PAYLOAD_LEN};
ghost use Rattle.chip_trait.specs.Story.{blank};
ghost use Rattle.crc_sum.specs.Crc.{tail_sum};
ghost use Rattle.ipl_format.specs.Version.{IsVersion};
ghost use Rattle.ipl_format.specs.Sector.{IsKind, filled, sector_bytes, sector_in};
ghost use Rattle.sector_format.specs.Decode.{HasRange, head_bytes, sector_of};

use crate::Head;
use crate::reading::{sum_by, tail_of};
use byteorder::{BigEndian, ByteOrder};

// Writes the first 28 bytes.
#[tactic(auto, unfolding(crate::specs::Decode::head_bytes))]
fn write_front(head: &Head, used: u16, out: &mut [u8; 512])
    ensures front { out.new ≡ head_bytes head.now used ++ drop 28 out.old }
    ensures fits { HasRange head.now }
{
    let Head {
        kind,
        version,
        unit,
        generation,
        serial,
    } = *head;
    out[0] = b'I';
    out[1] = b'P';
    out[2] = b'L';
    out[3] = b'1';
    out[4] = kind;
    out[5] = version;
    BigEndian::write_u16(&mut out[6..8], used);
    BigEndian::write_u32(&mut out[8..12], unit);
    BigEndian::write_u64(&mut out[12..20], generation);
    BigEndian::write_u64(&mut out[20..28], serial);
}

// Copies the payload behind the head.
fn copy_payload(payload: &[u8], out: &mut [u8; 512])
    requires { length payload.now ≤ PAYLOAD_LEN }
    ensures { out.new ≡ take 32 out.old ++ payload.now ++ drop (32 + length payload.now) out.old }
{
    out[32..32 + payload.len()].copy_from_slice(payload);
}

// Fills a sector with zeros from a byte on.
fn clear_from(start: usize, out: &mut [u8; 512])
    requires { start ≤ 512 }
    ensures { out.new ≡ take start out.old ++ replicate (512 - start) 0 }
{
    out[start..].fill(0);
}

// Writes the payload, and zeros after it.
fn write_payload(payload: &[u8], out: &mut [u8; 512])
    requires { length payload.now ≤ PAYLOAD_LEN }
    ensures { drop 32 out.new ≡ filled payload.now }
{
    copy_payload(payload, out);
    clear_from(32 + payload.len(), out);
}

// Writes the head and its sum, before a payload that stands there and brings so much into the sum.
fn write_head(head: &Head, payload: &[u8], tail: u32, out: &mut [u8; 512])
    requires fits { length payload.now ≤ PAYLOAD_LEN }
    requires known { IsKind head.now.kind }
    requires version { IsVersion head.now.version }
    requires tail { tail ≡ tail_sum (drop 32 out.old) }
    requires there { drop 32 out.old ≡ filled payload.now }
    ensures bytes { out.new ≡ sector_bytes (sector_of head.now payload.now) }
    ensures said { sector_in out.new ≡ Some (sector_of head.now payload.now) }
    ensures written { out.new ≢ blank }
{
    write_front(head, payload.len() as u16, out);
    let sum = sum_by(out, tail);
    BigEndian::write_u32(&mut out[28..32], sum);
}

/// Writes a sector as `encode` does, where what the payload, filled up, brings into the sum was taken
/// before.
pub fn encode_by(head: &Head, payload: &[u8], tail: u32, out: &mut [u8; 512])
    requires fits { length payload.now ≤ PAYLOAD_LEN }
    requires known { IsKind head.now.kind }
    requires version { IsVersion head.now.version }
    requires tail { tail ≡ tail_sum (filled payload.now) }
    ensures bytes { out.new ≡ sector_bytes (sector_of head.now payload.now) }
    ensures said { sector_in out.new ≡ Some (sector_of head.now payload.now) }
    ensures written { out.new ≢ blank }
{
    write_payload(payload, out);
    write_head(head, payload, tail, out);
}

/// Writes the sector of this head (of a kind and a version that there are) and a payload of at most
/// 480 bytes, whatever stood there.
pub fn encode(head: &Head, payload: &[u8], out: &mut [u8; 512])
    requires fits { length payload.now ≤ PAYLOAD_LEN }
    requires known { IsKind head.now.kind }
    requires version { IsVersion head.now.version }
    ensures bytes { out.new ≡ sector_bytes (sector_of head.now payload.now) }
    ensures said { sector_in out.new ≡ Some (sector_of head.now payload.now) }
    ensures written { out.new ≢ blank }
{
    write_payload(payload, out);
    let tail = tail_of(out);
    write_head(head, payload, tail, out);
}
