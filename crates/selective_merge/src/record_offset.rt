//! Where log records stand among the log sectors of a unit.
ghost use Rattle.std.specs.Prelude.{◌≡◌, ◌≤◌, ◌<◌, ◌+◌, ◌++◌, ℕ, length};
ghost use Rattle.ipl_base.specs.declared.limits.TheConstants.{LIVE_RECORDS, LIVE_SECTORS, PAGES, PAYLOAD_LEN, SLOTS};
ghost use Rattle.ipl_format.specs.Record.{IsLogPayload};
ghost use Rattle.log_records.specs.View.{record_of};
ghost use Rattle.selective_merge.specs.Logs.{located, offsets_in, offsets_of, sector_at, IsOffset};

use bounded_vec::BoundedVec;
use log_records::{
    Record, first_len, first_number, first_page, first_record, first_slot, has_record,
};
use unit_log::LogSector;

/// Where a log record stands: in which of a unit's log sectors, and from which of its bytes on.
#[derive(Clone, Copy)]
pub struct RecordOffset {
    /// 0 to 30.
    pub sector: u8,
    /// 0 to 468.
    pub at: u16,
}

/// Puts the offsets of the records of a sector behind others, for which room was taken.
fn index_sector(bytes: &[u8], version: u8, sector: u8, offsets: &mut BoundedVec<RecordOffset>)
    requires fits { length bytes.now ≤ PAYLOAD_LEN }
    requires left { length offsets.old.items + 40 ≤ offsets.old.room }
    ensures items { offsets.new.items ≡ offsets.old.items ++ offsets_in version sector bytes.now }
    ensures few { length offsets.new.items ≤ length offsets.old.items + 40 }
    ensures room { offsets.new.room ≡ offsets.old.room }
{
    let mut at = 0;
    for turn in 0..bytes.len() {
        let _ = turn;
        if !has_record(&bytes[at..], version) {
            return;
        }
        offsets.push(RecordOffset {
            sector,
            at: at as u16,
        });
        at += first_len(&bytes[at..], version);
    }
}

/// The offsets of the records of these log sectors, at most 31, in their order, and no others.
pub(crate) fn index(sectors: &[LogSector], offsets: &mut BoundedVec<RecordOffset>)
    requires few { length sectors.now ≤ LIVE_SECTORS }
    requires left { LIVE_RECORDS ≤ offsets.old.room }
    ensures items { offsets.new.items ≡ offsets_of 0 sectors.now }
    ensures few { length offsets.new.items ≤ LIVE_RECORDS }
    ensures room { offsets.new.room ≡ offsets.old.room }
    ensures spelled { (k : ℕ) → k < length sectors.now
        → IsLogPayload (sector_at sectors.now k).payload.version (sector_at sectors.now k).payload.bytes }
{
    offsets.clear();
    for k in 0..sectors.len() {
        let payload = &sectors[k].payload;
        index_sector(payload.bytes(), payload.version(), k as u8, offsets);
    }
}

/// The page of the record there, 0 to 14.
pub(crate) fn page_of(sectors: &[LogSector], offset: RecordOffset) -> u32
    requires { IsOffset sectors.now offset }
    ensures page { result ≡ (located sectors.now offset).page }
    ensures within { result < PAGES }
{
    let payload = &sectors[usize::from(offset.sector)].payload;
    first_page(
        &payload.bytes()[usize::from(offset.at)..],
        payload.version(),
    )
}

/// Its slot, 0 to 63.
pub(crate) fn slot_of(sectors: &[LogSector], offset: RecordOffset) -> u32
    requires { IsOffset sectors.now offset }
    ensures slot { result ≡ (located sectors.now offset).slot }
    ensures within { result < SLOTS }
{
    let payload = &sectors[usize::from(offset.sector)].payload;
    first_slot(
        &payload.bytes()[usize::from(offset.at)..],
        payload.version(),
    )
}

/// Its number.
pub(crate) fn number_of(sectors: &[LogSector], offset: RecordOffset) -> u64
    requires { IsOffset sectors.now offset }
    ensures { result ≡ (located sectors.now offset).tid }
{
    let payload = &sectors[usize::from(offset.sector)].payload;
    first_number(
        &payload.bytes()[usize::from(offset.at)..],
        payload.version(),
    )
}

/// The record itself, with a copy of its value.
pub(crate) fn record_at(sectors: &[LogSector], offset: RecordOffset) -> Record
    requires { IsOffset sectors.now offset }
    ensures { record_of result ≡ located sectors.now offset }
{
    let payload = &sectors[usize::from(offset.sector)].payload;
    first_record(
        &payload.bytes()[usize::from(offset.at)..],
        payload.version(),
    )
}
