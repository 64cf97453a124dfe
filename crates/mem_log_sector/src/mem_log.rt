//! Records that fit in one log sector.
ghost use Rattle.std.specs.Prelude.{◌≡◌, ◌≤◌, ◌<◌, ◌+◌, ◌++◌, [], ◌∷◌, ◌↔◌, IsTrue, length};
ghost use Rattle.std.specs.Bool.{OnTrue, OnFalse};
ghost use Rattle.ipl_base.specs.declared.limits.TheConstants.{PAYLOAD_LEN, VALUE_LEN, VERSION};
ghost use Rattle.ipl_format.specs.Record.{IsRecord, value_of};
ghost use Rattle.ipl_meaning.specs.Last.{size_of, size_of_all};
ghost use Rattle.log_records.specs.Reading.{records_of};
ghost use Rattle.log_records.specs.View.{Spells, change_of, record_of};
ghost use Rattle.mem_log_sector.specs.MemLogs.{without_tid, IsMemLog};

use ipl_base::{PAYLOAD_LEN, RECORD_HEAD};
use log_records::{Change, Payload, Record, put, records};
use std::marker::Model;
use std::mem;

/// Log records that aren't on the chip yet, as many as one log sector has room for, in the version of
/// all that is written. A contract sees the list, the oldest first.
#[derive(Drop)]
pub struct MemLog {
    payload: Payload,
}

impl Model for MemLog {
    ghost use Rattle.std.specs.Prelude.{◌≡◌, List};
    ghost use Rattle.ipl_base.specs.declared.limits.TheConstants.{VERSION};
    ghost use Rattle.ipl_format.specs.Record.{Record};
    ghost use Rattle.log_records.specs.Reading.{records_of};

    ghost Value = { List Record };

    ghost view = { λ m. records_of m.payload.version m.payload.bytes };

    ghost invariant = { λ m. m.payload.version ≡ VERSION };
}

impl MemLog {
    /// No records.
    pub fn empty() -> MemLog
        ensures { result ≡ [] }
    {
        MemLog {
            payload: Payload::empty(),
        }
    }

    /// What always holds: each record has a spelling, and together they have at most 480 bytes.
    pub fn facts(&self)
        ensures { IsMemLog self.now }
    {
        let _ = self.payload.bytes();
    }

    /// Whether there are none.
    pub fn is_empty(&self) -> bool
        ensures { IsTrue result ↔ (self.now ≡ []) }
    {
        self.payload.bytes().is_empty()
    }

    /// Whether a record fits in a log sector with them.
    pub fn fits(&self, rec: &Record) -> bool
        ensures { IsTrue result
            ↔ (size_of_all self.now + size_of (record_of rec.now) ≤ PAYLOAD_LEN) }
    {
        self.payload.bytes().len() + RECORD_HEAD + value_len(&rec.change) <= PAYLOAD_LEN
    }

    /// Adds a record, of page 0 to 14 and slot 0 to 63, behind the others. False exactly where it
    /// doesn't fit in a log sector with them; they are then as they were. It has a spelling either way.
    pub fn push(&mut self, rec: &Record) -> bool
        requires page { rec.now.page < 15 }
        requires slot { rec.now.slot < 64 }
        ensures fits { IsTrue result
            ↔ (size_of_all self.old + size_of (record_of rec.now) ≤ PAYLOAD_LEN) }
        ensures pushed { OnTrue result (self.new ≡ self.old ++ record_of rec.now ∷ []) }
        ensures full { OnFalse result (self.new ≡ self.old) }
        ensures spelled { IsRecord VERSION (record_of rec.now) }
    {
        valid(rec);
        let _ = self.payload.bytes();
        let pushed = put(&mut self.payload, rec);
        let _ = self.payload.bytes();
        pushed
    }

    /// Drops the records of this number; the others stay, in their order.
    pub fn drop_tid(&mut self, tid: u64)
        ensures { self.new ≡ without_tid tid self.old }
    {
        self.payload = others(&self.payload, tid);
    }

    /// Drops all records.
    pub fn clear(&mut self)
        ensures { self.new ≡ [] }
    {
        *self = MemLog::empty();
    }

    /// A copy of the records, as the payload of a log sector that is written.
    pub fn payload(&self) -> Payload
        ensures records { Spells result self.now }
        ensures version { result.version ≡ VERSION }
    {
        Payload::of(self.payload.bytes(), self.payload.version())
    }

    /// Takes all records away, as the payload of a log sector that is written.
    pub fn take(&mut self) -> Payload
        ensures payload { Spells result self.old }
        ensures version { result.version ≡ VERSION }
        ensures empty { self.new ≡ [] }
    {
        let _ = self.payload.bytes();
        mem::replace(&mut self.payload, Payload::empty())
    }
}

/// The records of a payload that are of other numbers.
fn others(payload: &Payload, tid: u64) -> Payload
    ensures records { Spells result
        (without_tid tid (records_of payload.now.version payload.now.bytes)) }
    ensures version { result.version ≡ VERSION }
{
    let _ = payload.bytes();
    let mut kept = Payload::empty();
    for record in records(payload) {
        if record.tid != tid {
            // They fitted before with others between them.
            let _ = put(&mut kept, &record);
        }
    }
    kept
}

/// How many bytes the value of a change has, at most 464.
fn value_len(change: &Change) -> usize
    ensures len { result ≡ length (value_of (change_of change.now)) }
    ensures short { result ≤ VALUE_LEN }
{
    match change {
        Change::Put(value) => value.bytes().len(),
        Change::Delete => 0,
    }
}

/// A record of page 0 to 14 and slot 0 to 63 has a spelling.
fn valid(rec: &Record)
    requires page { rec.now.page < 15 }
    requires slot { rec.now.slot < 64 }
    ensures { IsRecord VERSION (record_of rec.now) }
{
    let _ = rec.tid.to_be_bytes();
    let _ = value_len(&rec.change);
}
