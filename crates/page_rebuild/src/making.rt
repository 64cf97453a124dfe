//! A page, made anew: of the records of committed numbers on a slot only the last one is put.
ghost use Rattle.std.specs.Prelude.{◌≡◌, ◌<◌, [], ◌∷◌};
ghost use Rattle.std.specs.Bool.{OnTrue};
ghost use Rattle.ipl_base.specs.declared.limits.TheConstants.{VERSION};
ghost use Rattle.ipl_format.specs.Page.{IsPage};
ghost use Rattle.log_records.specs.Reading.{records_of};
ghost use Rattle.log_records.specs.View.{record_of};
ghost use Rattle.number_set.specs.Numbers.{among};
ghost use Rattle.unit_log.specs.Kept.{records_kept};
ghost use Rattle.page_rebuild.specs.Made.{AreAhead, AreRecordsPassed};

use log_records::{Payload, Record, records};
use page_ops::{Coming, apply_where_room};
use page_text::PageMap;
use txn_status::Status;
use unit_log::LogSector;

/// Whether a number is committed.
pub(crate) fn is_committed(status: &Status, tid: u64) -> bool
    ensures { result ≡ among status.now.numbers tid }
{
    status.is_committed(tid)
}

/// Passes a record, which is put where it is the last one on its slot of a committed number. Answers
/// whether the page had room.
fn pass_record(
    map: &mut PageMap,
    coming: &mut Coming,
    page: u32,
    logged: &Record,
    status: &Status,
) -> bool
    requires slot { logged.now.slot < 64 }
    requires ahead { AreAhead (among status.now.numbers) page (record_of logged.now ∷ [])
        coming.old map.old }
    ensures { AreRecordsPassed (among status.now.numbers) page (record_of logged.now ∷ [])
        coming.old map.old coming.new map.new result }
{
    if logged.page != page {
        return true;
    }
    if !is_committed(status, logged.tid) {
        return true;
    }
    if !coming.take(logged.slot) {
        return true;
    }
    apply_where_room(map, logged)
}

/// Passes the records of a payload, in order, and answers whether the page had room.
fn pass_payload(
    map: &mut PageMap,
    coming: &mut Coming,
    page: u32,
    payload: &Payload,
    status: &Status,
) -> bool
    requires { AreAhead (among status.now.numbers) page
        (records_of payload.now.version payload.now.bytes) coming.old map.old }
    ensures { AreRecordsPassed (among status.now.numbers) page
        (records_of payload.now.version payload.now.bytes)
        coming.old map.old coming.new map.new result }
{
    // The bytes are a list of records, so each slot is one of 64.
    let _ = payload.bytes();
    for logged in records(payload) {
        if !pass_record(map, coming, page, &logged, status) {
            return false;
        }
    }
    true
}

/// Passes the records of log sectors, in order, and answers whether the page had room.
pub(crate) fn pass_sectors(
    map: &mut PageMap,
    coming: &mut Coming,
    page: u32,
    sectors: &[LogSector],
    status: &Status,
) -> bool
    requires { AreAhead (among status.now.numbers) page (records_kept sectors.now)
        coming.old map.old }
    ensures passed { AreRecordsPassed (among status.now.numbers) page (records_kept sectors.now)
        coming.old map.old coming.new map.new result }
    ensures page { OnTrue result (IsPage VERSION map.new) }
{
    for sector in sectors {
        if !pass_payload(map, coming, page, &sector.payload, status) {
            return false;
        }
    }
    let _ = map.text();
    true
}
