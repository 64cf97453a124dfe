//! Log sectors, kept in memory.
ghost use Rattle.std.specs.Prelude.{◌≡◌, ◌≤◌, ◌<◌, ◌+◌, [], ◌∷◌, not, length, IfOk, Bool};
ghost use Rattle.std.specs.List.{insert};
ghost use Rattle.std.specs.Bool.{OnTrue, OnFalse};
ghost use Rattle.bounded_vec.specs.Bounded.{with_items};
ghost use Rattle.ipl_base.specs.declared.limits.TheConstants.{LIVE_SECTORS};
ghost use Rattle.unit_log.specs.Kept.{has_serial, with_kept, rank_of, HaveRisingSerials};

use bounded_vec::BoundedVec;
use ipl_base::{LIVE_SECTORS, OutOfMemory};
use log_records::Payload;
use std::alloc::Global;
use std::marker::Model;

/// A log sector: its serial, and its records.
#[derive(Drop)]
pub struct LogSector {
    pub serial: u64,
    pub payload: Payload,
}

/// At most 31 log sectors, in rising order of their serials. A contract sees the list. Memory is
/// taken by `new` alone.
#[derive(Drop)]
pub struct Scratch {
    sectors: BoundedVec<LogSector>,
}

impl Model for Scratch {
    ghost use Rattle.std.specs.Prelude.{List, length, ◌≤◌};
    ghost use Rattle.ipl_base.specs.declared.limits.TheConstants.{LIVE_SECTORS};
    ghost use Rattle.unit_log.specs.declared.scratch.LogSector.{LogSector};
    ghost use Rattle.unit_log.specs.Kept.{HaveRisingSerials};

    ghost Value = { List LogSector };

    ghost view = { λ s. s.sectors.items };

    ghost invariant = { λ s. (length s.sectors.items ≤ LIVE_SECTORS)
        × (LIVE_SECTORS ≤ s.sectors.room)
        × HaveRisingSerials s.sectors.items };
}

/// Whether one of these log sectors has a serial.
fn has_serial(sectors: &[LogSector], serial: u64) -> bool
    ensures { result ≡ has_serial serial sectors.now }
{
    for sector in sectors {
        if sector.serial == serial {
            return true;
        }
    }
    false
}

/// How many of these stand before the first whose serial isn't below this.
fn rank_of(sectors: &[LogSector], serial: u64) -> usize
    ensures rank { result ≡ rank_of serial sectors.now }
    ensures within { result ≤ length sectors.now }
{
    let mut rank = 0;
    for sector in sectors {
        if sector.serial >= serial {
            return rank;
        }
        rank += 1;
    }
    rank
}

/// Puts a log sector at a place among these, which have room. Most come behind the others, where it
/// isn't moved again.
fn put(sectors: &mut BoundedVec<LogSector>, at: usize, sector: LogSector)
    requires within { at ≤ length sectors.old.items }
    requires room { length sectors.old.items < sectors.old.room }
    ensures { sectors.new ≡ with_items sectors.old (insert sectors.old.items at sector) }
{
    if at == sectors.len() {
        sectors.push(sector);
    } else {
        sectors.insert(at, sector);
    }
}

impl Scratch {
    /// No log sectors, and room for 31.
    pub fn new(alloc: Global) -> Result<Scratch, OutOfMemory>
        ensures { IfOk result (λ scratch. scratch ≡ []) }
    {
        let sectors = BoundedVec::new(alloc, LIVE_SECTORS)?;
        Ok(Scratch { sectors })
    }

    /// Takes all log sectors away.
    pub fn clear(&mut self)
        ensures { self.new ≡ [] }
    {
        self.sectors.clear();
    }

    /// The log sectors, in rising order of their serials.
    pub fn sectors(&self) -> &[LogSector]
        ensures sectors { result.now ≡ self.now }
        ensures few { length result.now ≤ LIVE_SECTORS }
        ensures rising { HaveRisingSerials result.now }
    {
        self.sectors.as_slice()
    }

    /// What always holds: there are at most 31, and their serials rise.
    pub fn facts(&self)
        ensures few { length self.now ≤ LIVE_SECTORS }
        ensures rising { HaveRisingSerials self.now }
    {
        let _ = &self.sectors;
    }

    /// Puts a log sector in, unless one has its serial. There must be room.
    pub(crate) fn insert(&mut self, serial: u64, payload: Payload) -> bool
        requires { length self.old < LIVE_SECTORS }
        ensures told { result ≡ not (has_serial serial self.old) }
        ensures done { OnTrue result
            (self.new ≡ with_kept (record { serial = serial; payload = payload }) self.old) }
        ensures kept { OnFalse result (self.new ≡ self.old) }
        ensures count { length self.new ≤ length self.old + 1 }
    {
        if has_serial(&self.sectors, serial) {
            return false;
        }
        let at = rank_of(&self.sectors, serial);
        put(&mut self.sectors, at, LogSector { serial, payload });
        true
    }
}
