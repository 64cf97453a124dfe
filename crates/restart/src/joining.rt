//! The committed numbers of log records join those that are kept.
ghost use Rattle.std.specs.Prelude.{◌≡◌, ◌<◌, [], ◌∷◌, length};
ghost use Rattle.std.specs.Bool.{OnTrue, OnFalse};
ghost use Rattle.log_records.specs.Reading.{records_of};
ghost use Rattle.log_records.specs.View.{record_of};
ghost use Rattle.number_set.specs.Flags.{flagged};
ghost use Rattle.txn_status.specs.Status.{keeps_of};
ghost use Rattle.unit_log.specs.Kept.{records_kept};
ghost use Rattle.restart.specs.Joins.{joined, kept_of, IsExact};

use crate::numbers::limit_of;
use log_records::{Payload, Record, records};
use number_set::Flags;
use txn_status::Status;
use unit_log::LogSector;

/// Gives a flag to the number of a record, where it is committed. False exactly where it doesn't fit.
fn add_number(kept: &mut Flags, logged: &Record, status: &Status) -> bool
    requires most { kept.old.most ≡ keeps_of status.now.most }
    requires room { kept.old.room ≡ status.now.most }
    ensures joined { OnTrue result (flagged kept.new status.now.numbers
        ≡ joined status.now.numbers (record_of logged.now ∷ [])
        (flagged kept.old status.now.numbers)) }
    ensures full { OnFalse result (IsExact (kept_of status.now.numbers kept.old)
        → keeps_of status.now.most < length (joined status.now.numbers (record_of logged.now ∷ [])
        (flagged kept.old status.now.numbers))) }
    ensures exact { IsExact (kept_of status.now.numbers kept.old)
        → IsExact (kept_of status.now.numbers kept.new) }
    ensures most { kept.new.most ≡ kept.old.most }
    ensures room { kept.new.room ≡ kept.old.room }
{
    status.facts();
    match status.rank(logged.tid) {
        None => true,
        Some(at) => {
            if kept.has(at) {
                return true;
            }
            kept.facts();
            let limit = limit_of(status.most());
            if kept.len() == limit {
                return false;
            }
            kept.raise(at);
            true
        }
    }
}

/// Gives a flag to each committed number of the records of a payload. False exactly where they don't
/// all fit, and then some of them may have theirs.
pub(crate) fn add_payload(kept: &mut Flags, payload: &Payload, status: &Status) -> bool
    requires most { kept.old.most ≡ keeps_of status.now.most }
    requires room { kept.old.room ≡ status.now.most }
    ensures joined { OnTrue result (flagged kept.new status.now.numbers
        ≡ joined status.now.numbers (records_of payload.now.version payload.now.bytes)
        (flagged kept.old status.now.numbers)) }
    ensures full { OnFalse result (IsExact (kept_of status.now.numbers kept.old)
        → keeps_of status.now.most < length (joined status.now.numbers
        (records_of payload.now.version payload.now.bytes) (flagged kept.old status.now.numbers))) }
    ensures exact { IsExact (kept_of status.now.numbers kept.old)
        → IsExact (kept_of status.now.numbers kept.new) }
    ensures most { kept.new.most ≡ kept.old.most }
    ensures room { kept.new.room ≡ kept.old.room }
{
    let _ = payload.bytes();
    for logged in records(payload) {
        if !add_number(kept, &logged, status) {
            return false;
        }
    }
    true
}

/// Gives a flag to each committed number of the records of log sectors. False exactly where they don't
/// all fit, and then some of them may have theirs.
pub(crate) fn add_sectors(kept: &mut Flags, sectors: &[LogSector], status: &Status) -> bool
    requires most { kept.old.most ≡ keeps_of status.now.most }
    requires room { kept.old.room ≡ status.now.most }
    ensures joined { OnTrue result (flagged kept.new status.now.numbers
        ≡ joined status.now.numbers (records_kept sectors.now)
        (flagged kept.old status.now.numbers)) }
    ensures full { OnFalse result (IsExact (kept_of status.now.numbers kept.old)
        → keeps_of status.now.most < length (joined status.now.numbers (records_kept sectors.now)
        (flagged kept.old status.now.numbers))) }
    ensures exact { IsExact (kept_of status.now.numbers kept.old)
        → IsExact (kept_of status.now.numbers kept.new) }
    ensures most { kept.new.most ≡ kept.old.most }
    ensures room { kept.new.room ≡ kept.old.room }
{
    for sector in sectors {
        if !add_payload(kept, &sector.payload, status) {
            return false;
        }
    }
    true
}
