//! The payload of a data header.
ghost use Rattle.std.specs.Prelude.{◌≡◌, ◌≤◌, ◌++◌, ◌↔◌, ℕ, List, IsTrue, IfSome, IfNone, All, drop, length, take};
ghost use Rattle.ipl_base.specs.declared.limits.TheConstants.{CARRIED_SECTORS, VERSION};
ghost use Rattle.ipl_format.specs.Header.{IsCount, SpellsDataHeader};
ghost use Rattle.unit_layout.specs.Header.{SpellsHeader};

use crate::words::{erases_at, erases_len, write_word};
use ipl_base::{CARRIED_SECTORS, PAGE_SECTORS};
use ipl_format::word_at;

/// What a data header says of its unit. The table is in docs/FORMAT.md, "Header payloads".
#[derive(Clone, Copy, Debug, PartialEq, Eq)]
pub struct DataHeader {
    /// How many units the chip holds.
    pub units: u32,
    /// How many base sectors each page has, 0 to 16.
    pub pieces: [u8; 15],
    /// How many log sectors were carried over when the unit was written, 0 to 12.
    pub carried: u8,
    /// How often its place was erased.
    pub erases: u32,
}

// Writes the counts behind the number of units.
fn write_counts(pieces: &[u8; 15], out: &mut [u8; 24])
    ensures front { take 19 out.new ≡ take 4 out.old ++ pieces.now }
    ensures fifteen { length pieces.now ≡ 15 }
{
    out[4..19].copy_from_slice(pieces);
}

/// Writes the payload of a data header, whose pages have at most 16 base sectors each, and at most
/// 12 log sectors carried, in the version of all that is written.
pub fn write_data_header(header: &DataHeader, out: &mut [u8; 24])
    requires pieces { All IsCount header.now.pieces }
    requires carried { header.now.carried ≤ CARRIED_SECTORS }
    ensures { SpellsHeader VERSION header.now out.new }
{
    let erases = header.erases;
    write_word(header.units, 0, out);
    write_counts(&header.pieces, out);
    out[19] = header.carried;
    write_word(erases, 20, out);
}

fn are_counts(bytes: &[u8]) -> bool
    ensures { IsTrue result ↔ All IsCount bytes.now }
{
    bytes.iter().all(|count| u32::from(*count) <= PAGE_SECTORS)
}

fn may_be_carried(count: u8) -> bool
    ensures { IsTrue result ↔ (count ≤ CARRIED_SECTORS) }
{
    usize::from(count) <= CARRIED_SECTORS
}

// The counts of the pages, bytes 4 to 19.
fn counts(payload: &[u8]) -> [u8; 15]
    requires { 20 ≤ length payload.now }
    ensures { result ≡ take 15 (drop 4 payload.now) }
{
    let mut pieces = [0; 15];
    pieces.copy_from_slice(&payload[4..19]);
    pieces
}

/// What a data header's payload says, by the version of its sector; `None` exactly where it isn't
/// one: another length than 20, from version 3 on 24, more than 16 base sectors in a page, or more
/// than 12 carried log sectors.
pub fn read_data_header(payload: &[u8], version: u8) -> Option<DataHeader>
    ensures some { IfSome result (λ header. SpellsHeader version header payload.now) }
    ensures none { IfNone result ((units : ℕ) (pieces : List ℕ)
        → SpellsDataHeader version units pieces payload.now → ⊥) }
{
    if payload.len() != 20 + erases_len(version) {
        return None;
    }
    let pieces = counts(payload);
    if !are_counts(&pieces) {
        return None;
    }
    if !may_be_carried(payload[19]) {
        return None;
    }
    Some(DataHeader {
        units: word_at(payload, 0),
        pieces,
        carried: payload[19],
        erases: erases_at(payload, 20, version),
    })
}
