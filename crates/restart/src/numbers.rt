//! The committed numbers that a new status place keeps.
ghost use Rattle.std.specs.Prelude.{◌≡◌, ◌≤◌, ◌↔◌, ℕ, List, [], length, IfOk, IsTrue};
ghost use Rattle.std.specs.Bool.{OnTrue, OnFalse};
ghost use Rattle.ipl_base.specs.declared.limits.TheConstants.{COMMIT_NUMBERS, LEAST_NUMBERS, STATUS_NUMBERS};
ghost use Rattle.log_records.specs.Reading.{records_of};
ghost use Rattle.number_set.specs.Flags.{flagged};
ghost use Rattle.txn_status.specs.Status.{keeps_of};
ghost use Rattle.unit_log.specs.Kept.{records_kept};
ghost use Rattle.restart.specs.Joins.{joined, kept_of, IsExact};

use crate::joining::{add_payload, add_sectors};
use ipl_base::{COMMIT_NUMBERS, KEPT_NUMBERS, OutOfMemory};
use log_records::Payload;
use number_set::Flags;
use std::alloc::Global;
use std::marker::Model;
use txn_status::Status;
use unit_log::LogSector;

/// How many numbers a new status place is given, where so many have room in memory, 60 or more: at
/// most 3,840, and so few that those of one commit have room besides.
pub(crate) fn limit_of(most: usize) -> usize
    requires { COMMIT_NUMBERS ≤ most }
    ensures { result ≡ keeps_of most }
{
    KEPT_NUMBERS.min(most - COMMIT_NUMBERS)
}

/// The committed numbers that a new status place keeps, as flags beside the committed numbers of a
/// status: two bits for each that this has room for. They are at most 3,840, and so few that those of
/// one commit have room besides. A contract sees the flags. Memory is taken by `new` alone.
#[derive(Drop)]
pub struct KeptNumbers {
    kept: Flags,
    /// Where the numbers of a log are tried: what it has between two calls says nothing.
    draft: Flags,
}

impl Model for KeptNumbers {
    ghost use Rattle.std.specs.Prelude.{◌≡◌};
    ghost use Rattle.txn_status.specs.Status.{keeps_of};
    ghost use Rattle.number_set.specs.Flags.{Flags};

    ghost Value = { Flags };

    ghost view = { λ k. k.kept };

    ghost invariant = { λ k. (k.kept.most ≡ keeps_of k.kept.room)
        × (k.draft.most ≡ k.kept.most) × (k.draft.room ≡ k.kept.room) };
}

impl KeptNumbers {
    /// No numbers, beside a status in which so many have room, 120 to 15,300.
    pub fn new(alloc: Global, most: usize) -> Result<KeptNumbers, OutOfMemory>
        requires least { LEAST_NUMBERS ≤ most }
        requires most { most ≤ STATUS_NUMBERS }
        ensures none { IfOk result (λ kept. (numbers : List ℕ) → flagged kept numbers ≡ []) }
        ensures count { IfOk result (λ kept. kept.count ≡ 0) }
        ensures room { IfOk result (λ kept. kept.room ≡ most) }
    {
        let limit = limit_of(most);
        let kept = Flags::new(alloc, most, limit)?;
        let draft = Flags::new(alloc, most, limit)?;
        Ok(KeptNumbers { kept, draft })
    }

    /// Takes all numbers away.
    pub(crate) fn clear(&mut self)
        ensures none { (numbers : List ℕ) → flagged self.new numbers ≡ [] }
        ensures count { self.new.count ≡ 0 }
        ensures room { self.new.room ≡ self.old.room }
    {
        self.kept.clear();
    }

    /// The flags of these numbers, which are at most as many as a new status place is given.
    pub fn flags(&self) -> &Flags
        ensures flags { result.now ≡ self.now }
        ensures few { (numbers : List ℕ) → length (flagged self.now numbers)
            ≤ keeps_of self.now.room }
    {
        self.kept.facts();
        &self.kept
    }

    /// The numbers of the records of a log sector that are committed join those that are kept. False
    /// exactly where they would be more than a new status place is given, and what is kept says nothing.
    /// That the flags were made for that status is a condition.
    pub(crate) fn add(&mut self, payload: &Payload, status: &Status) -> bool
        requires room { self.old.room ≡ status.now.most }
        ensures fits { IsExact (kept_of status.now.numbers self.old) → (IsTrue result
            ↔ (length (joined status.now.numbers (records_of payload.now.version payload.now.bytes)
            (flagged self.old status.now.numbers)) ≤ keeps_of status.now.most)) }
        ensures joined { OnTrue result (flagged self.new status.now.numbers
            ≡ joined status.now.numbers (records_of payload.now.version payload.now.bytes)
            (flagged self.old status.now.numbers)) }
        ensures exact { IsExact (kept_of status.now.numbers self.old)
            → IsExact (kept_of status.now.numbers self.new) }
        ensures room { self.new.room ≡ self.old.room }
    {
        status.facts();
        if !add_payload(&mut self.kept, payload, status) {
            return false;
        }
        self.kept.facts();
        true
    }

    /// The numbers of the records of these log sectors that are committed join those that are kept.
    /// False exactly where they would be more than a new status place is given, and the same are kept as
    /// before. That the flags were made for that status is a condition.
    pub(crate) fn join(&mut self, sectors: &[LogSector], status: &Status) -> bool
        requires room { self.old.room ≡ status.now.most }
        ensures fits { IsExact (kept_of status.now.numbers self.old) → (IsTrue result
            ↔ (length (joined status.now.numbers (records_kept sectors.now)
            (flagged self.old status.now.numbers)) ≤ keeps_of status.now.most)) }
        ensures joined { OnTrue result (flagged self.new status.now.numbers
            ≡ joined status.now.numbers (records_kept sectors.now)
            (flagged self.old status.now.numbers)) }
        ensures exact { IsExact (kept_of status.now.numbers self.old)
            → IsExact (kept_of status.now.numbers self.new) }
        ensures same { OnFalse result (self.new ≡ self.old) }
        ensures room { self.new.room ≡ self.old.room }
    {
        self.draft.take(&self.kept);
        if !add_sectors(&mut self.draft, sectors, status) {
            return false;
        }
        self.draft.facts();
        self.kept.take(&self.draft);
        true
    }
}
