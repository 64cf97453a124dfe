//! A page, made anew: of the records on a slot only the last one is put.
ghost use Rattle.std.specs.Prelude.{◌≡◌, ◌≤◌, ◌<◌, ◌+◌, ◌-◌, ◌==◌, ◌↔◌, ℕ, IsTrue, Some, None, length, replicate, slice_index, slice_set, if◌then◌else◌};
ghost use Rattle.std.specs.Bool.{OnTrue, OnFalse};
ghost use Rattle.ipl_base.specs.declared.limits.TheConstants.{LIVE_RECORDS, PAGE_LEN, SLOTS, VALUE_LEN, VERSION};
ghost use Rattle.ipl_base.specs.Sizes.{size_of_values};
ghost use Rattle.ipl_format.specs.Page.{IsPage, value_in};
ghost use Rattle.log_records.specs.View.{record_of};
ghost use Rattle.page_ops.specs.Frames.{with_record};

use ipl_base::SLOTS;
use log_records::{Change, Record};
use page_text::PageMap;
use std::marker::Model;

/// How many records of a log are still to come on each slot (0 to 63) of a page. A contract sees the
/// 64 counts.
#[derive(Drop)]
pub struct Coming {
    counts: [u16; 64],
}

impl Model for Coming {
    ghost use Rattle.std.specs.Prelude.{ℕ, List};

    ghost Value = { List ℕ };

    ghost view = { λ c. c.counts };
}

impl Coming {
    /// None on any slot.
    pub fn none() -> Coming
        ensures { result ≡ replicate SLOTS 0 }
    {
        Coming { counts: [0; 64] }
    }

    /// Whether there are none on any slot.
    pub fn is_none(&self) -> bool
        ensures { IsTrue result ↔ (self.now ≡ replicate SLOTS 0) }
    {
        are_zero(&self.counts)
    }

    /// One more on a slot (0 to 63), on which there are fewer than 1240.
    pub fn add(&mut self, slot: u32)
        requires slot { slot < 64 }
        requires room { slice_index self.old slot < LIVE_RECORDS }
        ensures slots { length self.new ≡ SLOTS }
        ensures added { self.new ≡ slice_set self.old slot (slice_index self.old slot + 1) }
    {
        self.counts[slot as usize] += 1;
    }

    /// One fewer on a slot (0 to 63) on which there is one; whether it was the last.
    pub fn take(&mut self, slot: u32) -> bool
        requires slot { slot < 64 }
        requires some { 0 < slice_index self.old slot }
        ensures slots { length self.new ≡ SLOTS }
        ensures taken { self.new ≡ slice_set self.old slot (slice_index self.old slot - 1) }
        ensures last { result ≡ (slice_index self.new slot == 0) }
    {
        self.counts[slot as usize] -= 1;
        self.counts[slot as usize] == 0
    }

    /// Empties each slot of a page on which one is still to come; the others stay.
    pub fn clear(&self, map: &mut PageMap)
        ensures page { IsPage VERSION map.new }
        ensures cleared { (slot : ℕ) → slot < SLOTS → value_in map.new slot
            ≡ (if slice_index self.now slot == 0 then value_in map.old slot else None) }
    {
        let _ = map.text();
        for slot in 0..SLOTS {
            if self.counts[slot as usize] > 0 {
                map.clear(slot);
            }
        }
    }
}

fn are_zero(counts: &[u16]) -> bool
    ensures { IsTrue result ↔ (counts.now ≡ replicate (length counts.now) 0) }
{
    counts.iter().all(|n| *n == 0)
}

/// Puts a value into a slot (0 to 63) of a page, where the text has room for it, and answers whether
/// it had.
fn put_where_room(map: &mut PageMap, slot: u32, value: &[u8]) -> bool
    requires slot { slot < 64 }
    requires short { length value.now ≤ VALUE_LEN }
    ensures page { IsPage VERSION map.new }
    ensures done { OnTrue result (map.new ≡ slice_set map.old slot (Some value.now)) }
    ensures full { OnFalse result
        (PAGE_LEN < size_of_values (value_in (slice_set map.old slot (Some value.now)))) }
    ensures kept { OnFalse result (map.new ≡ map.old) }
{
    let _ = map.text();
    if !map.has_room(slot, value) {
        return false;
    }
    map.set(slot, value);
    true
}

/// Does to a page what a record says, where the text has room for it, and answers whether it had. The
/// record's slot (0 to 63) gets the value of a put or is emptied by a delete, and the others stay.
/// Which page the record names isn't asked. With no room the page stays as it was.
pub fn apply_where_room(map: &mut PageMap, logged: &Record) -> bool
    requires { logged.now.slot < 64 }
    ensures page { IsPage VERSION map.new }
    ensures done { OnTrue result (map.new ≡ with_record map.old (record_of logged.now)) }
    ensures full { OnFalse result
        (PAGE_LEN < size_of_values (value_in (with_record map.old (record_of logged.now)))) }
    ensures kept { OnFalse result (map.new ≡ map.old) }
{
    match &logged.change {
        Change::Put(value) => put_where_room(map, logged.slot, value.bytes()),
        Change::Delete => {
            map.clear(logged.slot);
            true
        }
    }
}
