//! Records of a page, counted before it is made anew: on each slot those of committed numbers, and
//! those of active ones.
ghost use Rattle.std.specs.Prelude.{◌≡◌, ◌≤◌, ◌<◌, ◌+◌, ℕ, [], ◌∷◌, length, replicate, slice_index};
ghost use Rattle.std.specs.List.{count_by};
ghost use Rattle.ipl_base.specs.declared.limits.TheConstants.{LIVE_RECORDS, LIVE_SECTORS, SLOTS};
ghost use Rattle.ipl_meaning.specs.Values.{counts_for};
ghost use Rattle.log_records.specs.Reading.{records_of};
ghost use Rattle.log_records.specs.View.{record_of};
ghost use Rattle.number_set.specs.Numbers.{among};
ghost use Rattle.unit_log.specs.Kept.{records_kept};
ghost use Rattle.page_rebuild.specs.Taken.{AreCountedBySlot};

use crate::making::is_committed;
use crate::pending::is_among;
use log_records::{Payload, Record, records};
use page_ops::Coming;
use txn_status::Status;
use unit_log::LogSector;

/// Counts a record on its slot, where it is one of the page and of a committed number.
fn count_value(values: &mut Coming, page: u32, logged: &Record, status: &Status)
    requires slot { logged.now.slot < 64 }
    requires room { slice_index values.old logged.now.slot
        + count_by (counts_for (among status.now.numbers) page logged.now.slot)
        (record_of logged.now ∷ []) ≤ LIVE_RECORDS }
    ensures { AreCountedBySlot (among status.now.numbers) page (record_of logged.now ∷ [])
        values.old values.new }
{
    if logged.page != page {
        return;
    }
    if is_committed(status, logged.tid) {
        values.add(logged.slot);
    }
}

/// Counts a record on its slot, where it is one of the page and of an active number.
fn count_change(changes: &mut Coming, page: u32, logged: &Record, active: &[u64])
    requires slot { logged.now.slot < 64 }
    requires room { slice_index changes.old logged.now.slot
        + count_by (counts_for (among active.now) page logged.now.slot)
        (record_of logged.now ∷ []) ≤ LIVE_RECORDS }
    ensures { AreCountedBySlot (among active.now) page (record_of logged.now ∷ [])
        changes.old changes.new }
{
    if logged.page != page {
        return;
    }
    if is_among(active, logged.tid) {
        changes.add(logged.slot);
    }
}

/// Counts the records of a payload, at most 40. No number is both committed and active, where the
/// tables are right; what is done here doesn't rest on that.
fn count_payload(
    values: &mut Coming,
    changes: &mut Coming,
    page: u32,
    payload: &Payload,
    status: &Status,
    active: &[u64],
)
    requires few_values { (slot : ℕ) → slot < SLOTS → slice_index values.old slot ≤ 1200 }
    requires few_changes { (slot : ℕ) → slot < SLOTS → slice_index changes.old slot ≤ 1200 }
    ensures values { AreCountedBySlot (among status.now.numbers) page
        (records_of payload.now.version payload.now.bytes) values.old values.new }
    ensures changes { AreCountedBySlot (among active.now) page
        (records_of payload.now.version payload.now.bytes) changes.old changes.new }
    ensures few { length (records_of payload.now.version payload.now.bytes) ≤ 40 }
{
    // The bytes are a list of records, so each slot is one of 64.
    let _ = payload.bytes();
    for logged in records(payload) {
        count_value(values, page, &logged, status);
        count_change(changes, page, &logged, active);
    }
}

/// Counts the records of log sectors, at most 31, where none is counted yet.
pub(crate) fn count_sectors(
    values: &mut Coming,
    changes: &mut Coming,
    page: u32,
    sectors: &[LogSector],
    status: &Status,
    active: &[u64],
)
    requires few { length sectors.now ≤ LIVE_SECTORS }
    requires no_values { values.old ≡ replicate SLOTS 0 }
    requires no_changes { changes.old ≡ replicate SLOTS 0 }
    ensures values { AreCountedBySlot (among status.now.numbers) page (records_kept sectors.now)
        (replicate SLOTS 0) values.new }
    ensures changes { AreCountedBySlot (among active.now) page (records_kept sectors.now)
        (replicate SLOTS 0) changes.new }
{
    for sector in sectors {
        count_payload(values, changes, page, &sector.payload, status, active);
    }
}
