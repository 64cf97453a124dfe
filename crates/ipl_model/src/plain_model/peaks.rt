//! What writes may come to take: the weights of a unit's names, and room in a page.
ghost use Rattle.std.specs.Prelude.{◌≡◌, ◌≤◌, ◌+◌, ◌^◌, max, length, IfOk};
ghost use Rattle.std.specs.List.{sum};
ghost use Rattle.ipl_base.specs.declared.limits.TheConstants.{LONG_WEIGHT, SLOTS, VALUE_LEN};
ghost use Rattle.ipl_base.specs.Sizes.{size_in_page};
ghost use Rattle.ipl_model.specs.Peaks.{peaks_of, weight_of_peak, weights, fill_with};
ghost use Rattle.ipl_model.specs.Plain.{newest_first, records_of, sizes_in, rooms_in, AreRecordSizes};

use super::log::Write;
use crate::weights::weight_of;
use ipl_base::{SLOTS, UNIT_NAMES, Value};
use std::alloc::{AllocError, Global};

/// The slots of a page, for arrays.
const ROOMS: usize = SLOTS as usize;

/// What a value or none takes in the text of its page.
fn size_in_page(value: &Option<Value>) -> u32
    ensures size { result ≡ size_in_page value.now }
    ensures fits { result ≤ 3 + VALUE_LEN }
{
    match value {
        Some(value) => 3 + value.bytes().len() as u32,
        None => 0,
    }
}

/// The peak of a name: one more than the most that a write of it takes, 0 where it isn't written.
fn peak_of(log: &[Write], name: u32) -> u32
    ensures peak { result ≡ peaks_of (newest_first log.now) name }
    ensures fits { result ≤ 4 + VALUE_LEN }
{
    let mut most = 0;
    for write in log {
        if write.name == name {
            most = (1 + size_in_page(&write.value)).max(most);
        }
    }
    most
}

/// How much heavier a write makes its name, after the older ones.
fn weight_added(older: &[Write], write: &Write) -> u32
    ensures { weight_of_peak (peaks_of (newest_first older.now) write.now.name) + result
        ≡ weight_of_peak (max (1 + size_in_page write.now.value)
        (peaks_of (newest_first older.now) write.now.name)) }
{
    let before = peak_of(older, write.name);
    let after = (1 + size_in_page(&write.value)).max(before);
    weight_of(u64::from(after)) - weight_of(u64::from(before))
}

/// What the names of a unit weigh that are written.
pub fn weights(log: &[Write], unit: u32) -> u32
    ensures { result ≡ weights (peaks_of (newest_first log.now)) unit }
{
    let mut total = 0;
    for (i, write) in log.iter().enumerate() {
        if write.name / UNIT_NAMES == unit {
            total += weight_added(&log[..i], write);
        }
    }
    total
}

/// What the records of a page take in its text, slot by slot.
fn sizes_in(committed: &[Write], page: u32) -> [u32; ROOMS]
    ensures { result ≡ sizes_in committed.now page }
{
    let mut sizes = [0; ROOMS];
    for write in committed {
        if write.name / SLOTS == page {
            sizes[(write.name % SLOTS) as usize] = size_in_page(&write.value);
        }
    }
    sizes
}

/// What the record of each of so many names takes in the text of its page, 0 where it has none.
pub fn record_sizes(
    alloc: Global,
    committed: &[Write],
    names: usize,
) -> Result<Vec<u32>, AllocError>
    ensures len { IfOk result (λ sizes. length sizes.items ≡ names) }
    ensures sizes { IfOk result (λ sizes. AreRecordSizes committed.now sizes.items) }
{
    let mut sizes = vec![in alloc; 0; names]?;
    for write in committed {
        let name = write.name as usize;
        if name < sizes.len() {
            sizes[name] = size_in_page(&write.value);
        }
    }
    Ok(sizes)
}

/// What the records of a page may come to take with the writes of a log, slot by slot.
fn rooms_in(committed: &[Write], log: &[Write], page: u32) -> [u32; ROOMS]
    ensures { result ≡ rooms_in committed.now log.now page }
{
    let mut rooms = sizes_in(committed, page);
    for write in log {
        if write.name / SLOTS == page {
            let slot = (write.name % SLOTS) as usize;
            rooms[slot] = rooms[slot].max(size_in_page(&write.value));
        }
    }
    rooms
}

/// What slots take together.
fn total(rooms: &[u32]) -> u64
    requires { length rooms.now ≤ SLOTS }
    ensures { result ≡ sum rooms.now }
{
    let mut total = 0;
    for room in rooms {
        total += u64::from(*room);
    }
    total
}

/// What a page may come to take, whichever of the writes of a log are committed.
pub fn fill(committed: &[Write], log: &[Write], page: u32) -> u64
    ensures { result
        ≡ fill_with (peaks_of (newest_first log.now)) (records_of committed.now) page }
{
    total(&rooms_in(committed, log, page))
}
