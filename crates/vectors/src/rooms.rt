//! What a log sector has room for: `room COUNT BYTES`, at most so many puts of these bytes, and then as
//! many deletes as fit. A payload and a log in memory have room for the same.
use crate::words::{bytes_of, join, number, parted};
use anyhow::{Context, Result};
use ipl_base::{VERSION, Value};
use log_records::{Change, Payload, Record, put};
use mem_log_sector::MemLog;
use std::alloc::Global;

/// More records than a log sector has room for.
const MANY: u32 = 50;

/// What comes of a row `room COUNT BYTES`: how many puts of these bytes a payload takes, at most so
/// many, how many deletes behind them, and the bytes of all; and the same of a log in memory, where
/// that differs. Fails where a word is misspelled, a value is too long, or memory is wanting.
pub fn room_row(alloc: Global, rest: &str) -> Result<String> {
    let (most, bytes) = parted(rest);
    let most = number(most)?;
    let value = Value::of(&bytes_of(alloc, bytes)?).context("no value")?;
    let first = record_of(Change::Put(value));
    let mut text = payload_room(alloc, most, &first)?;
    let logged = log_room(alloc, most, &first)?;
    if logged.as_str() != text.as_str() {
        join(&mut text, logged.as_str())?;
    }
    Ok(text)
}

/// A record of the last slot of the first page.
fn record_of(change: Change) -> Record {
    Record {
        page: 0,
        slot: 63,
        tid: 1,
        change,
    }
}

/// What a payload has room for.
fn payload_room(alloc: Global, most: u32, first: &Record) -> Result<String> {
    let mut payload = Payload::empty();
    let puts = put_all(&mut payload, most, first);
    let deletes = put_all(&mut payload, MANY, &record_of(Change::Delete));
    let used = payload.bytes().len();
    Ok(format!(in alloc; "puts {puts} deletes {deletes} bytes {used}")?)
}

/// Puts a record into a payload of what is written so often, or as often as it fits; how often it did.
fn put_all(payload: &mut Payload, most: u32, record: &Record) -> u32 {
    for count in 0..most {
        if record.page >= 15 || record.slot >= 64 || payload.version() != VERSION {
            return count;
        }
        if !put(payload, record) {
            return count;
        }
    }
    most
}

/// What a log in memory has room for.
fn log_room(alloc: Global, most: u32, first: &Record) -> Result<String> {
    let mut log = MemLog::empty();
    let puts = push_all(&mut log, most, first);
    let deletes = push_all(&mut log, MANY, &record_of(Change::Delete));
    let used = log.take().bytes().len();
    Ok(format!(in alloc; "puts {puts} deletes {deletes} bytes {used}")?)
}

/// Pushes a record so often, or as often as it fits; how often it did.
fn push_all(log: &mut MemLog, most: u32, record: &Record) -> u32 {
    for count in 0..most {
        if record.page >= 15 || record.slot >= 64 || !log.push(record) {
            return count;
        }
    }
    most
}
