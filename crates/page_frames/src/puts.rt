//! A record put into the frame of its page, and the records of a page dropped.
ghost use Rattle.std.specs.Prelude.{◌≡◌, ◌≤◌, ◌<◌, ◌↔◌, ℕ, true, Some, None, IsSome, IsTrue};
ghost use Rattle.std.specs.Bool.{OnTrue, OnFalse};
ghost use Rattle.ipl_base.specs.declared.limits.TheConstants.{PAGE_LEN, VERSION};
ghost use Rattle.ipl_format.specs.Record.{IsRecord};
ghost use Rattle.log_records.specs.View.{record_of, Spells};
ghost use Rattle.page_ops.specs.Frames.{values_in, pending_in};
ghost use Rattle.page_ops.specs.Pending.{fill_by};
ghost use Rattle.store_laws.specs.Frames.{PageFrame, IsWrittenFrame, logs_of};
ghost use Rattle.page_frames.specs.Views.{frames_of};
ghost use Rattle.page_frames.specs.Changes.{noted, FrameChanges, IsClearedFrame, KeepsPool, MayPut, PutHasRoom};

use buffer_pool::Pool;
use log_records::{Payload, Record};
use page_ops::Frame;

/// Whether the page of a record (0 to 14 of a unit) is in a frame, and the record fits behind those of
/// its page that aren't on the chip yet.
pub(crate) fn has_room(pool: &Pool, unit: u32, rec: &Record) -> bool
    requires { rec.now.page < 15 }
    ensures { IsTrue result ↔ MayPut (frames_of pool.now) unit (record_of rec.now) }
{
    match pool.records(unit, rec.page) {
        Some(log) => log.fits(rec),
        None => false,
    }
}

/// Puts a record behind those of its page that aren't on the chip yet, and notes its change as pending,
/// where the page has room for all that may become values then; answers whether it has, as it always has
/// for a delete. The page is in a frame of this unit, and the record fits. With no room all frames stay.
pub fn put_record(pool: &mut Pool, unit: u32, rec: &Record) -> bool
    requires page { rec.now.page < 15 }
    requires slot { rec.now.slot < 64 }
    requires fits { MayPut (frames_of pool.old) unit (record_of rec.now) }
    ensures room { (f : PageFrame) → frames_of pool.old unit rec.now.page ≡ Some f
        → IsTrue result ↔ PutHasRoom f (record_of rec.now) }
    ensures deletes { (record_of rec.now).change ≡ None → result ≡ true }
    ensures put { OnTrue result (FrameChanges (IsWrittenFrame (record_of rec.now)) (frames_of pool.old)
        (frames_of pool.new) unit rec.now.page) }
    ensures spelled { OnTrue result (IsRecord VERSION (record_of rec.now)) }
    ensures kept { OnFalse result (frames_of pool.new ≡ frames_of pool.old) }
    ensures pool { KeepsPool pool.old pool.new }
{
    pool.facts();
    let Some(key) = pool.find(unit, rec.page) else {
        unreachable!("the page is in a frame");
    };
    if !note_change(pool.frame_under(key), rec) {
        return false;
    }
    let _ = pool.log_under(key).push(rec);
    true
}

/// Notes a record's change as pending in a frame, where the page has room for it; answers whether it has.
fn note_change(frame: &mut Frame, rec: &Record) -> bool
    requires { rec.now.slot < 64 }
    ensures exact { IsTrue result
        ↔ (fill_by (values_in frame.old) (noted (pending_in frame.old) (record_of rec.now)) ≤ PAGE_LEN) }
    ensures deletes { (record_of rec.now).change ≡ None → result ≡ true }
    ensures page { frame.new.page ≡ frame.old.page }
    ensures pending { OnTrue result ((k : ℕ)
        → pending_in frame.new k ≡ noted (pending_in frame.old) (record_of rec.now) k) }
    ensures kept { OnFalse result (frame.new ≡ frame.old) }
{
    let _ = frame.committed();
    frame.set_pending(rec.slot, rec.tid, &rec.change)
}

/// A copy of the records of a page (0 to 14 of a unit) that aren't on the chip yet, as the payload of a
/// log sector; an empty one where the page is in no frame.
pub(crate) fn log_payload(pool: &Pool, unit: u32, page: u32) -> Payload
    requires { page < 15 }
    ensures records { Spells result (logs_of (frames_of pool.now) unit page) }
    ensures version { result.version ≡ VERSION }
{
    match pool.records(unit, page) {
        Some(log) => log.payload(),
        None => Payload::empty(),
    }
}

/// Drops the records of a page (0 to 14 of a unit) that is in a frame, for they are on the chip now.
/// What is pending stays.
pub(crate) fn clear_log(pool: &mut Pool, unit: u32, page: u32)
    requires page { page < 15 }
    requires there { IsSome (frames_of pool.old unit page) }
    ensures cleared { FrameChanges IsClearedFrame (frames_of pool.old) (frames_of pool.new) unit
        page }
    ensures pool { KeepsPool pool.old pool.new }
{
    pool.facts();
    match pool.find(unit, page) {
        Some(key) => pool.log_under(key).clear(),
        None => unreachable!("the page is in a frame"),
    }
}
