//! Pending changes, set in a frame: of the records of active numbers on a slot only the last one.
ghost use Rattle.std.specs.Prelude.{◌≡◌, ◌≤◌, ◌<◌, [], ◌∷◌};
ghost use Rattle.std.specs.Bool.{OnTrue};
ghost use Rattle.ipl_base.specs.declared.limits.TheConstants.{PAGE_LEN};
ghost use Rattle.log_records.specs.Reading.{records_of};
ghost use Rattle.log_records.specs.View.{record_of};
ghost use Rattle.number_set.specs.Numbers.{among};
ghost use Rattle.unit_log.specs.Kept.{records_kept};
ghost use Rattle.page_ops.specs.Frames.{frame_fill};
ghost use Rattle.page_rebuild.specs.Pended.{AreToSet, AreSet};

use log_records::{Payload, Record, records};
use page_ops::{Coming, Frame};
use unit_log::LogSector;

/// Whether a number is one of these.
pub(crate) fn is_among(numbers: &[u64], tid: u64) -> bool
    ensures { result ≡ among numbers.now tid }
{
    numbers.contains(&tid)
}

/// Passes a record, whose change is set as pending where it is the last one on its slot of an active
/// number. Answers whether the page had room.
fn set_record(
    frame: &mut Frame,
    coming: &mut Coming,
    page: u32,
    logged: &Record,
    active: &[u64],
) -> bool
    requires slot { logged.now.slot < 64 }
    requires next { AreToSet (among active.now) page (record_of logged.now ∷ [])
        coming.old frame.old }
    ensures { AreSet (among active.now) page (record_of logged.now ∷ [])
        coming.old frame.old coming.new frame.new result }
{
    if logged.page != page {
        return true;
    }
    if !is_among(active, logged.tid) {
        return true;
    }
    if !coming.take(logged.slot) {
        return true;
    }
    frame.set_pending(logged.slot, logged.tid, &logged.change)
}

/// Passes the records of a payload, in order, and answers whether the page had room.
fn set_payload(
    frame: &mut Frame,
    coming: &mut Coming,
    page: u32,
    payload: &Payload,
    active: &[u64],
) -> bool
    requires { AreToSet (among active.now) page
        (records_of payload.now.version payload.now.bytes) coming.old frame.old }
    ensures { AreSet (among active.now) page
        (records_of payload.now.version payload.now.bytes)
        coming.old frame.old coming.new frame.new result }
{
    // The bytes are a list of records, so each slot is one of 64.
    let _ = payload.bytes();
    for logged in records(payload) {
        if !set_record(frame, coming, page, &logged, active) {
            return false;
        }
    }
    true
}

/// Passes the records of log sectors, in order, and answers whether the page had room.
pub(crate) fn set_sectors(
    frame: &mut Frame,
    coming: &mut Coming,
    page: u32,
    sectors: &[LogSector],
    active: &[u64],
) -> bool
    requires { AreToSet (among active.now) page (records_kept sectors.now)
        coming.old frame.old }
    ensures set { AreSet (among active.now) page (records_kept sectors.now)
        coming.old frame.old coming.new frame.new result }
    ensures room { OnTrue result (frame_fill frame.new ≤ PAGE_LEN) }
{
    for sector in sectors {
        if !set_payload(frame, coming, page, &sector.payload, active) {
            return false;
        }
    }
    let _ = frame.committed();
    true
}
