//! Payloads of log sectors, filled one after another.
ghost use Rattle.std.specs.Prelude.{◌≡◌, ◌<◌, ◌≤◌, ◌++◌, [], ◌∷◌, List, length, IfOk};
ghost use Rattle.std.specs.Bool.{OnTrue, OnFalse};
ghost use Rattle.ipl_base.specs.declared.limits.TheConstants.{CARRIED_SECTORS, VERSION};
ghost use Rattle.ipl_format.specs.Record.{IsRecord, Record as LogRecord};
ghost use Rattle.log_records.specs.View.{record_of};
ghost use Rattle.selective_merge.specs.Packs.{payload_of, payloads_of};
ghost use Rattle.selective_merge.specs.Packing.{pack_open, IsAdded, IsPayload, masks_of_payloads};

use bounded_vec::BoundedVec;
use ipl_base::{CARRIED_SECTORS, OutOfMemory};
use log_records::{Payload, Record, put};
use std::alloc::Global;
use std::mem::replace;
use unit_log::mask_of;

/// At most 12 payloads that are full, and one that is being filled. Memory is taken by `new` alone.
#[derive(Drop)]
pub struct Packs {
    closed: BoundedVec<Payload>,
    last: Payload,
    ghost room: { CARRIED_SECTORS ≤ closed.room },
    ghost few: { length closed.items ≤ CARRIED_SECTORS },
    ghost version: { last.version ≡ VERSION },
}

impl Packs {
    /// No records.
    pub fn new(alloc: Global) -> Result<Packs, OutOfMemory>
        ensures { IfOk result (λ packs. packs.closed.items ≡ []) }
    {
        let closed = BoundedVec::new(alloc, CARRIED_SECTORS)?;
        Ok(Packs {
            closed,
            last: Payload::empty(),
        })
    }

    /// Makes it as `new` does.
    pub fn clear(&mut self)
        ensures closed { self.new.closed.items ≡ [] }
        ensures last { self.new.last ≡ payload_of [] }
    {
        self.closed.clear();
        self.last = Payload::empty();
    }

    /// The full payloads, at most 12.
    pub fn payloads(&self) -> &[Payload]
        ensures all { result.now ≡ self.now.closed.items }
        ensures few { length result.now ≤ CARRIED_SECTORS }
    {
        &self.closed
    }

    /// How many payloads are full, at most 12.
    pub fn count(&self) -> u8
        ensures { result ≡ length self.now.closed.items }
    {
        self.closed.len() as u8
    }

    /// The payload that was being filled is full. False exactly where 12 are full; unchanged then.
    fn close(&mut self) -> bool
        ensures closed { OnTrue result
            (self.new.closed.items ≡ self.old.closed.items ++ self.old.last ∷ []) }
        ensures last { OnTrue result (self.new.last ≡ payload_of []) }
        ensures full { OnFalse result (CARRIED_SECTORS ≤ length self.old.closed.items) }
    {
        if self.closed.len() >= CARRIED_SECTORS {
            return false;
        }
        let full = replace(&mut self.last, Payload::empty());
        self.closed.push(full);
        true
    }

    /// Puts a record behind the others, where it fits; else that payload is full, and the record
    /// begins the next. False exactly where 12 are full and one more would be.
    pub fn add(&mut self, logged: &Record) -> bool
        requires { IsRecord VERSION (record_of logged.now) }
        ensures adds { (full : List LogRecord) → IsPayload self.old.last full
            → OnTrue result (IsAdded self.old.closed.items full (record_of logged.now)
            self.new.closed.items self.new.last) }
        ensures full { (full rest : List LogRecord) → IsPayload self.old.last full
            → OnFalse result (CARRIED_SECTORS < length (self.old.closed.items
            ++ payloads_of (pack_open full (record_of logged.now ∷ rest)))) }
    {
        if put(&mut self.last, logged) {
            return true;
        }
        if !self.close() {
            return false;
        }
        put(&mut self.last, logged)
    }

    /// The last payload is full, unless it has no record. False exactly where 12 were full before.
    pub fn finish(&mut self) -> bool
        ensures done { (full : List LogRecord) → IsPayload self.old.last full
            → OnTrue result (self.new.closed.items
            ≡ self.old.closed.items ++ payloads_of (pack_open full [])) }
        ensures full { (full : List LogRecord) → IsPayload self.old.last full
            → OnFalse result (CARRIED_SECTORS < length (self.old.closed.items
            ++ payloads_of (pack_open full []))) }
    {
        if self.last.bytes().is_empty() {
            return true;
        }
        self.close()
    }
}

/// Which pages the records of each of these payloads name, at most 12: bit p is page p's. Behind them
/// stand log sectors that name none.
pub(crate) fn masks_of(payloads: &[Payload]) -> [u16; 15]
    requires { length payloads.now ≤ CARRIED_SECTORS }
    ensures { result ≡ masks_of_payloads 15 payloads.now }
{
    let mut masks = [0; 15];
    for i in 0..payloads.len() {
        masks[i] = mask_of(&payloads[i]);
    }
    masks
}
