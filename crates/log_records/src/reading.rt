//! Log records, read from bytes.
ghost use Rattle.std.specs.Prelude.{◌≡◌, ◌≤◌, ◌<◌, ◌+◌, ◌↔◌, IsTrue, drop, length, option_map, slice_index, true};
ghost use Rattle.ipl_base.specs.declared.limits.TheConstants.{PAGES, RECORD_HEAD, SLOTS};
ghost use Rattle.ipl_format.specs.Version.{most_len};
ghost use Rattle.ipl_format.specs.Record.{IsLogPayload, kind_in, slot_in, size_in};
ghost use Rattle.log_records.specs.Reading.{change_at, first_record, has_record, is_change, record_at};
ghost use Rattle.log_records.specs.View.{change_of, record_of};

use crate::{Change, Record};
use ipl_base::{RECORD_HEAD, SHORT_LEN, VALUE_LEN, Value};
use ipl_format::{half_at, long_at};

/// How many bytes a value has in this version, at most: 108 in version 1, and 464 from version 2
/// on. The table is in docs/FORMAT.md, "Log payload".
pub(crate) fn most_len(version: u8) -> usize
    ensures { result ≡ most_len version }
{
    if version == 1 { SHORT_LEN } else { VALUE_LEN }
}

fn kind_in(bytes: &[u8], version: u8) -> u8
    requires { 4 ≤ length bytes.now }
    ensures { result ≡ kind_in version bytes.now }
{
    if version == 1 {
        bytes[1]
    } else {
        bytes[1] / 64
    }
}

fn slot_in(bytes: &[u8], version: u8) -> u8
    requires { 4 ≤ length bytes.now }
    ensures { result ≡ slot_in version bytes.now }
{
    if version == 1 {
        bytes[2]
    } else {
        bytes[1] % 64
    }
}

fn size_in(bytes: &[u8], version: u8) -> usize
    requires { 4 ≤ length bytes.now }
    ensures size { result ≡ size_in version bytes.now }
    ensures short { result < 65536 }
{
    if version == 1 {
        usize::from(bytes[3])
    } else {
        usize::from(half_at(bytes, 2))
    }
}

fn is_change(kind: u8, len: usize, version: u8) -> bool
    ensures { result ≡ is_change version kind len }
{
    (kind == 1 && len <= most_len(version)) || (kind == 2 && len == 0)
}

/// Whether the bytes begin with a record.
pub fn has_record(bytes: &[u8], version: u8) -> bool
    ensures { result ≡ has_record version bytes.now }
{
    bytes.len() >= RECORD_HEAD
        && bytes[0] < 15
        && slot_in(bytes, version) < 64
        && is_change(kind_in(bytes, version), size_in(bytes, version), version)
        && RECORD_HEAD + size_in(bytes, version) <= bytes.len()
}

fn change_at(bytes: &[u8], version: u8) -> Change
    requires { has_record version bytes.now ≡ true }
    ensures { change_of result ≡ change_at version bytes.now }
{
    if kind_in(bytes, version) != 1 {
        return Change::Delete;
    }
    let end = RECORD_HEAD + size_in(bytes, version);
    match Value::of(&bytes[RECORD_HEAD..end]) {
        Some(value) => Change::Put(value),
        None => unreachable!(),
    }
}

/// The record that the bytes begin with.
pub fn first_record(bytes: &[u8], version: u8) -> Record
    requires { has_record version bytes.now ≡ true }
    ensures { record_of result ≡ first_record version bytes.now }
{
    Record {
        page: u32::from(bytes[0]),
        slot: u32::from(slot_in(bytes, version)),
        tid: long_at(bytes, 4),
        change: change_at(bytes, version),
    }
}

/// Its page, 0 to 14.
pub fn first_page(bytes: &[u8], version: u8) -> u32
    requires { has_record version bytes.now ≡ true }
    ensures page { result ≡ (first_record version bytes.now).page }
    ensures within { result < PAGES }
{
    let _ = version;
    u32::from(bytes[0])
}

/// Its slot, 0 to 63.
pub fn first_slot(bytes: &[u8], version: u8) -> u32
    requires { has_record version bytes.now ≡ true }
    ensures slot { result ≡ (first_record version bytes.now).slot }
    ensures within { result < SLOTS }
{
    u32::from(slot_in(bytes, version))
}

/// Its number.
pub fn first_number(bytes: &[u8], version: u8) -> u64
    requires { has_record version bytes.now ≡ true }
    ensures { result ≡ (first_record version bytes.now).tid }
{
    let _ = version;
    long_at(bytes, 4)
}

/// How many bytes it takes, at least 12.
pub fn first_len(bytes: &[u8], version: u8) -> usize
    requires { has_record version bytes.now ≡ true }
    ensures size { result ≡ RECORD_HEAD + size_in version bytes.now }
    ensures within { result ≤ length bytes.now }
{
    RECORD_HEAD + size_in(bytes, version)
}

fn after_record(bytes: &[u8], version: u8) -> &[u8]
    requires { has_record version bytes.now ≡ true }
    ensures { result.now ≡ drop (RECORD_HEAD + size_in version bytes.now) bytes.now }
{
    &bytes[RECORD_HEAD + size_in(bytes, version)..]
}

/// The first record, read in this version, and the bytes after it. `None` exactly where the bytes
/// begin with no record. The table is in docs/FORMAT.md, "Log payload".
#[tactic(auto, unfolding(crate::specs::Reading::record_at))]
pub(crate) fn record_at(bytes: &[u8], version: u8) -> Option<(Record, &[u8])>
    ensures { option_map (λ p. (record_of p.0, p.1.now)) result ≡ record_at version bytes.now }
{
    if !has_record(bytes, version) {
        return None;
    }
    Some((first_record(bytes, version), after_record(bytes, version)))
}

/// Whether the bytes are a list of records in a version, with nothing left over.
pub fn is_list(bytes: &[u8], version: u8) -> bool
    ensures { IsTrue result ↔ IsLogPayload version bytes.now }
{
    let mut rest = bytes;
    while !rest.is_empty() {
        match record_at(rest, version) {
            Some((_, after)) => rest = after,
            None => return false,
        }
    }
    true
}
