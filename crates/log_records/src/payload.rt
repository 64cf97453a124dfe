//! Records in the payload of one sector.
ghost use Rattle.std.specs.Prelude.{◌≡◌, ◌≤◌, ◌<◌, ◌+◌, ◌++◌, ◌↔◌, [], IsTrue, length};
ghost use Rattle.ipl_format.specs.Numbers.{long};
ghost use Rattle.std.specs.Bool.{OnTrue, OnFalse};
ghost use Rattle.ipl_base.specs.declared.limits.TheConstants.{PAYLOAD_LEN, RECORD_HEAD, SHORT_LEN, VALUE_LEN, VERSION};
ghost use Rattle.ipl_format.specs.Version.{most_len};
ghost use Rattle.ipl_format.specs.Record.{IsLogPayload, IsRecord, record_bytes, record_head, value_of};
ghost use Rattle.log_records.specs.Reading.{records_of};
ghost use Rattle.log_records.specs.View.{Versioned, Spells, change_of, record_of};

use crate::{Record, Records};
use arrayvec::ArrayVec;
use ipl_base::{PAYLOAD_LEN, RECORD_HEAD, VERSION};
use std::marker::Model;

/// A list of records as at most 480 bytes, and the version by which they are read. A contract sees
/// both.
#[derive(Debug, Drop)]
pub struct Payload {
    version: u8,
    bytes: ArrayVec<u8, PAYLOAD_LEN>,
}

impl Model for Payload {
    ghost Value = { Versioned };

    ghost view = { λ p. record { version = p.version; bytes = p.bytes.items } };

    ghost invariant = { λ p. (length p.bytes.items ≤ PAYLOAD_LEN) × IsLogPayload p.version p.bytes.items };
}

impl Payload {
    /// No records, in the version of all that is written.
    pub fn empty() -> Payload
        ensures { result ≡ record { version = VERSION; bytes = [] } }
    {
        Payload {
            version: VERSION,
            bytes: ArrayVec::new(),
        }
    }

    /// The payload of these bytes, which are a list of records in this version (see `is_list`), at
    /// most 480 of them.
    pub fn of(bytes: &[u8], version: u8) -> Payload
        requires list { IsLogPayload version bytes.now }
        requires fits { length bytes.now ≤ PAYLOAD_LEN }
        ensures { result ≡ record { version = version; bytes = bytes.now } }
    {
        let mut items = ArrayVec::new();
        let _ = items.try_extend_from_slice(bytes);
        Payload {
            version,
            bytes: items,
        }
    }

    /// The bytes, a list of records.
    pub fn bytes(&self) -> &[u8]
        ensures value { result.now ≡ self.now.bytes }
        ensures list { IsLogPayload self.now.version result.now }
        ensures fits { length result.now ≤ PAYLOAD_LEN }
    {
        self.bytes.as_slice()
    }

    /// The version by which they are read.
    pub fn version(&self) -> u8
        ensures { result ≡ self.now.version }
    {
        self.version
    }
}

// The first four bytes of a record.
#[tactic(auto, unfolding(ipl_format::specs::Record::record_head, ipl_format::specs::Numbers::half))]
fn head(page: u8, kind: u8, slot: u8, len: usize, version: u8) -> [u8; 4]
    requires kind { kind ≤ 2 }
    requires slot { slot < 64 }
    requires short { len ≤ most_len version }
    ensures { result ≡ record_head version page kind slot len }
{
    if version == 1 {
        [page, kind, slot, len as u8]
    } else {
        let l = (len as u16).to_be_bytes();
        [page, 64 * kind + slot, l[0], l[1]]
    }
}

// The eight bytes behind them.
#[tactic(auto, unfolding(ipl_format::specs::Numbers::long))]
fn number(tid: u64) -> [u8; 8]
    ensures { result ≡ long tid }
{
    tid.to_be_bytes()
}

// Adds bytes at the end, where there is room.
fn extend(bytes: &mut ArrayVec<u8, PAYLOAD_LEN>, more: &[u8])
    requires { length bytes.old.items + length more.now ≤ PAYLOAD_LEN }
    ensures { bytes.new.items ≡ bytes.old.items ++ more.now }
{
    let _ = bytes.try_extend_from_slice(more);
}

// How many bytes a record takes, the same in each version.
fn entry_len(logged: &Record, version: u8) -> usize
    ensures len { result ≡ length (record_bytes version (record_of logged.now)) }
    ensures whole { result ≡ RECORD_HEAD + length (value_of (change_of logged.now.change)) }
    ensures value { length (value_of (change_of logged.now.change)) ≤ VALUE_LEN }
{
    RECORD_HEAD + logged.change.bytes().len()
}

// Adds a record's bytes at the end, where there is room.
fn extend_with(bytes: &mut ArrayVec<u8, PAYLOAD_LEN>, logged: &Record, version: u8)
    requires page { logged.now.page < 15 }
    requires slot { logged.now.slot < 64 }
    requires short { length (value_of (change_of logged.now.change)) ≤ most_len version }
    requires room { length bytes.old.items
        + (RECORD_HEAD + length (value_of (change_of logged.now.change))) ≤ PAYLOAD_LEN }
    ensures { bytes.new.items
        ≡ bytes.old.items ++ record_bytes version (record_of logged.now) }
{
    let value = logged.change.bytes();
    let head = head(
        logged.page as u8,
        logged.change.kind(),
        logged.slot as u8,
        value.len(),
        version,
    );
    let number = number(logged.tid);
    extend(bytes, &head);
    extend(bytes, &number);
    extend(bytes, value);
}

// A record of these ranges has a spelling.
fn valid(logged: &Record, version: u8)
    requires page { logged.now.page < 15 }
    requires slot { logged.now.slot < 64 }
    requires short { length (value_of (change_of logged.now.change)) ≤ most_len version }
    ensures { IsRecord version (record_of logged.now) }
{
    let _ = logged.tid.to_be_bytes();
    let _ = logged.change.bytes();
}

/// Adds a record, of page 0 to 14 and slot 0 to 63, at the end; into a payload of version 1 one of
/// at most 108 bytes. False exactly where it doesn't fit; the payload is then as it was.
pub fn put(payload: &mut Payload, logged: &Record) -> bool
    requires page { logged.now.page < 15 }
    requires slot { logged.now.slot < 64 }
    requires short { payload.old.version ≡ 1
        → length (value_of (change_of logged.now.change)) ≤ SHORT_LEN }
    ensures fits { IsTrue result ↔ (length payload.old.bytes
        + length (record_bytes payload.old.version (record_of logged.now)) ≤ PAYLOAD_LEN) }
    ensures added { OnTrue result (payload.new ≡ record {
      version = payload.old.version;
      bytes = payload.old.bytes ++ record_bytes payload.old.version (record_of logged.now);
    }) }
    ensures full { OnFalse result (payload.new ≡ payload.old) }
{
    let version = payload.version;
    if entry_len(logged, version) > payload.bytes.remaining_capacity() {
        return false;
    }
    valid(logged, version);
    extend_with(&mut payload.bytes, logged, version);
    true
}

/// The records of a payload, in order.
pub fn records(payload: &Payload) -> Records<'_>
    ensures { Spells payload.now (records_of result.version result.bytes) }
{
    Records::over(payload.bytes(), payload.version())
}
