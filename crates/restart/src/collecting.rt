//! The committed numbers of live log records are collected.
ghost use Rattle.std.specs.Prelude.{◌≡◌, ◌≤◌, ℕ, List, true, length};
ghost use Rattle.ipl_base.specs.declared.limits.TheConstants.{PAYLOAD_LEN};
ghost use Rattle.log_records.specs.Reading.{records_of};
ghost use Rattle.restart.specs.Joins.{joined, kept_of};
ghost use Rattle.ipl_meaning.specs.Payloads.{is_log_payload};
ghost use Rattle.restart.specs.Collected.{AreKept};

use crate::numbers::KeptNumbers;
use log_records::Payload;
use txn_status::Status;

/// What was found in log sectors so far, beside what the tables have.
#[derive(Clone, Copy)]
pub(crate) struct Gathered {
    /// The greatest number.
    pub(crate) greatest: u64,
    /// Whether the committed numbers of live records, which are kept, were no more than a new status
    /// place is given.
    pub(crate) fits: bool,
}

/// The committed numbers of a live log sector join those that are kept, where all of them fitted so
/// far. Answers whether all do still.
pub(crate) fn collect(
    numbers: &mut KeptNumbers,
    status: &Status,
    payload: &[u8],
    version: u8,
    fits: bool,
) -> bool
    requires list { is_log_payload version payload.now ≡ true }
    requires fits { length payload.now ≤ PAYLOAD_LEN }
    requires room { numbers.old.room ≡ status.now.most }
    ensures kept { (found : List ℕ) → AreKept found fits (kept_of status.now.numbers numbers.old)
        → AreKept (joined status.now.numbers (records_of version payload.now) found) result
        (kept_of status.now.numbers numbers.new) }
    ensures room { numbers.new.room ≡ numbers.old.room }
{
    if !fits {
        return false;
    }
    numbers.add(&Payload::of(payload, version), status)
}
