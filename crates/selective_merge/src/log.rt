//! The records of a unit's live log sectors, in their order.
ghost use Rattle.std.specs.Prelude.{◌≡◌, ◌<◌, ◌≤◌, [], length, IfOk};
ghost use Rattle.ipl_base.specs.declared.limits.TheConstants.{LIVE_RECORDS, LIVE_SECTORS, PAGES, SLOTS, VERSION};
ghost use Rattle.ipl_format.specs.Record.{IsRecord};
ghost use Rattle.log_records.specs.View.{record_of};
ghost use Rattle.unit_log.specs.Kept.{records_kept};
ghost use Rattle.selective_merge.specs.Logs.{nth_record};

use crate::record_offset::{RecordOffset, index, number_of, page_of, record_at, slot_of};
use bounded_vec::BoundedVec;
use ipl_base::{LIVE_RECORDS, OutOfMemory};
use log_records::Record;
use std::alloc::Global;
use std::marker::Model;
use unit_log::LogSector;

/// Room for the offsets of 1240 records. What it has says nothing. Memory is taken by `new` alone.
#[derive(Drop)]
pub struct Offsets {
    items: BoundedVec<RecordOffset>,
}

impl Model for Offsets {
    ghost use Rattle.std.specs.Prelude.{List, ◌≤◌};
    ghost use Rattle.ipl_base.specs.declared.limits.TheConstants.{LIVE_RECORDS};
    ghost use Rattle.selective_merge.specs.declared.record_offset.RecordOffset.{RecordOffset};

    ghost Value = { List RecordOffset };

    ghost view = { λ p. p.items.items };

    ghost invariant = { λ p. LIVE_RECORDS ≤ p.items.room };
}

impl Offsets {
    /// Room for 1240.
    pub fn new(alloc: Global) -> Result<Offsets, OutOfMemory>
        ensures { IfOk result (λ offsets. offsets ≡ []) }
    {
        let items = BoundedVec::new(alloc, LIVE_RECORDS)?;
        Ok(Offsets { items })
    }
}

/// Log records in their order, at most 1240, as they stand in log sectors. A contract sees the list.
#[derive(Drop)]
pub struct Log<'a> {
    sectors: &'a [LogSector],
    offsets: &'a [RecordOffset],
}

impl<'a> Model for Log<'a> {
    ghost use Rattle.std.specs.Prelude.{List, map};
    ghost use Rattle.ipl_format.specs.Record.{Record as LogRecord};
    ghost use Rattle.selective_merge.specs.Logs.{located, AreOffsets};

    ghost Value = { List LogRecord };

    ghost view = { λ l. map (located l.sectors.now) l.offsets.now };

    ghost invariant = { λ l. AreOffsets l.sectors.now l.offsets.now };
}

impl<'a> Log<'a> {
    /// The records of these log sectors, at most 31, in their order.
    pub fn of(sectors: &'a [LogSector], offsets: &'a mut Offsets) -> Log<'a>
        requires { length sectors.now ≤ LIVE_SECTORS }
        ensures { result ≡ records_kept sectors.now }
    {
        index(sectors, &mut offsets.items);
        Log {
            sectors,
            offsets: offsets.items.as_slice(),
        }
    }

    /// How many records there are, at most 1240.
    pub fn len(&self) -> usize
        ensures len { result ≡ length self.now }
        ensures few { result ≤ LIVE_RECORDS }
    {
        self.offsets.len()
    }

    /// The page of the i-th record, 0 to 14.
    pub fn page(&self, i: usize) -> u32
        requires { i < length self.now }
        ensures page { result ≡ (nth_record self.now i).page }
        ensures within { result < PAGES }
    {
        page_of(self.sectors, self.offsets[i])
    }

    /// Its slot, 0 to 63.
    pub fn slot(&self, i: usize) -> u32
        requires { i < length self.now }
        ensures slot { result ≡ (nth_record self.now i).slot }
        ensures within { result < SLOTS }
    {
        slot_of(self.sectors, self.offsets[i])
    }

    /// Its number.
    pub fn number(&self, i: usize) -> u64
        requires { i < length self.now }
        ensures { result ≡ (nth_record self.now i).tid }
    {
        number_of(self.sectors, self.offsets[i])
    }

    /// The record itself, with a copy of its value.
    pub fn get(&self, i: usize) -> Record
        requires { i < length self.now }
        ensures is { record_of result ≡ nth_record self.now i }
        ensures valid { IsRecord VERSION (record_of result) }
    {
        record_at(self.sectors, self.offsets[i])
    }
}
