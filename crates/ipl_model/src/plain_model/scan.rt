//! Scans of a log of writes, the oldest of which stands first.
ghost use Rattle.std.specs.Prelude.{◌≡◌, ◌≤◌, length, is_some};
ghost use Rattle.std.specs.FinMap.{get};
ghost use Rattle.ipl_model.specs.State.{last_write, written_names};
ghost use Rattle.ipl_model.specs.Plain.{newest_first, records_of};

use super::log::{Write, copied};
use ipl_base::Value;

/// The newest write of a name.
pub(crate) fn newest(log: &[Write], name: u32) -> Option<Option<Value>>
    ensures { result ≡ last_write (newest_first log.now) name }
{
    let mut found = None;
    for write in log {
        if write.name == name {
            found = Some(copied(&write.value));
        }
    }
    found
}

/// Whether some write is of this name.
pub fn is_written(log: &[Write], name: u32) -> bool
    ensures { result ≡ is_some (last_write (newest_first log.now) name) }
{
    newest(log, name).is_some()
}

/// How many names are written.
pub(crate) fn count_names(log: &[Write]) -> usize
    ensures names { result ≡ length (written_names (newest_first log.now)) }
    ensures few { result ≤ length log.now }
{
    let mut count = 0;
    for (i, write) in log.iter().enumerate() {
        if !is_written(&log[..i], write.name) {
            count += 1;
        }
    }
    count
}

/// The record of a name, where it has one.
pub fn record(committed: &[Write], name: u32) -> Option<Value>
    ensures { result ≡ get (records_of committed.now) name }
{
    match newest(committed, name) {
        Some(value) => value,
        None => None,
    }
}
