//! Log records, in a version: `records BYTES`, each record, and whether they are put again as the same
//! bytes.
ghost use Rattle.std.specs.Prelude.{◌≡◌, length};
ghost use Rattle.ipl_format.specs.Record.{value_of};
ghost use Rattle.log_records.specs.View.{change_of};

use crate::words::{bytes_of, hex_of, join, text_of, versioned};
use anyhow::{Result, ensure};
use ipl_base::SHORT_LEN;
use log_records::{Change, Payload, Record, is_list, put, records};
use std::alloc::Global;

/// What comes of a row `records BYTES`, in a version: each record of a log payload, and `same` or
/// `other`, by whether they are put again as the same bytes; or `refused`, where the bytes are no
/// list of records. Fails where they are more than 480, a word is misspelled, or memory is wanting.
pub fn records_row(alloc: Global, rest: &str) -> Result<String> {
    let (version, rest) = versioned(rest)?;
    let bytes = bytes_of(alloc, rest)?;
    ensure!(bytes.len() <= 480, "no payload");
    if !is_list(&bytes, version) {
        return text_of(alloc, "refused");
    }
    let payload = Payload::of(&bytes, version);
    let mut text = String::new(alloc);
    for record in records(&payload) {
        join(&mut text, record_text(alloc, &record)?.as_str())?;
    }
    let is_same = put_again(&payload).bytes() == payload.bytes();
    join(&mut text, if is_same { "same" } else { "other" })?;
    Ok(text)
}

/// A record's page, slot, number and value.
fn record_text(alloc: Global, record: &Record) -> Result<String> {
    let Record {
        page,
        slot,
        tid,
        change,
    } = record;
    match change {
        Change::Put(value) => {
            let value = hex_of(alloc, value.bytes())?;
            Ok(format!(in alloc; "put {page} {slot} {tid} {value}")?)
        }
        Change::Delete => Ok(format!(in alloc; "delete {page} {slot} {tid}")?),
    }
}

/// The records of a payload, put into an empty one of its version.
fn put_again(payload: &Payload) -> Payload {
    let mut again = Payload::of(&[], payload.version());
    for record in records(payload) {
        put_one(&mut again, &record);
    }
    again
}

/// Puts a record that has a spelling in the payload's version.
fn put_one(payload: &mut Payload, record: &Record) {
    if record.page >= 15 || record.slot >= 64 {
        return;
    }
    if payload.version() == 1 && value_len(&record.change) > SHORT_LEN {
        return;
    }
    let _ = put(payload, record);
}

/// How many bytes the value of a change has.
fn value_len(change: &Change) -> usize
    ensures { result ≡ length (value_of (change_of change.now)) }
{
    match change {
        Change::Put(value) => value.bytes().len(),
        Change::Delete => 0,
    }
}
