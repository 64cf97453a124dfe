//! A desk in memory, for tests of the whole program.
ghost use Rattle.std.specs.Prelude.{◌≡◌, ◌≤◌, ◌<◌, ◌-◌, vec_len, IfOk};

use crate::failing::{FailingSay, kept_of};
use arrayvec::ArrayVec;
use chip_mem::MemChip;
use chip_trait::{Chip, Desk, Failed, Wear};
use ipl_base::OutOfMemory;
use std::alloc::Global;

/// A chip that keeps its story, the bytes of a script and the sizes of the pieces in which they are read. What it says
/// stands in the chip's story. It tells the noted bytes while they are at most 1,024.
#[derive(Drop)]
pub struct MemDesk {
    chip: MemChip,
    script: Vec<u8>,
    at: usize,
    cuts: Vec<u32>,
    reads: u64,
    says: u64,
    failing_reads: Vec<u64>,
    failing_says: Vec<FailingSay>,
    noted: ArrayVec<u8, 1024>,
    all_noted: bool,
    script_bytes: u64,
    script_faults: u64,
    say_faults: u64,
    ghost within: { at ≤ vec_len script },
}

impl MemDesk {
    ghost use Rattle.std.specs.Prelude.{List, ℕ, Some};
    ghost use Rattle.ipl_cli.specs.MemDesk.{beside_of, desk_told, desk_plan, new_beside, new_desk_plan, read_count};

    /// Read k of the script gives at most `cuts[k]` bytes, and past the list, or where that is 0, as many as fit.
    pub fn new(
        alloc: Global,
        chip: MemChip,
        script: &[u8],
        cuts: &[u32],
    ) -> Result<MemDesk, OutOfMemory>
        ensures chip { IfOk result (λ d. d.chip ≡ chip) }
        ensures beside { IfOk result (λ d. beside_of d ≡ new_beside script.now) }
        ensures plan { IfOk result (λ d. desk_plan d ≡ new_desk_plan cuts.now) }
    {
        Ok(MemDesk {
            chip,
            script: Vec::from_slice(alloc, script)?,
            at: 0,
            cuts: Vec::from_slice(alloc, cuts)?,
            reads: 0,
            says: 0,
            failing_reads: Vec::new(alloc),
            failing_says: Vec::new(alloc),
            noted: ArrayVec::new(),
            all_noted: true,
            script_bytes: 0,
            script_faults: 0,
            say_faults: 0,
        })
    }

    /// Its chip, in whose story is what was said.
    pub fn chip(&self) -> &MemChip
        ensures { result.now ≡ self.now.chip }
    {
        &self.chip
    }

    /// The noted bytes, where they are told.
    pub fn noted(&self) -> &[u8]
        ensures { (bytes : List ℕ) → (beside_of self.now).noted ≡ Some bytes → result.now ≡ bytes }
    {
        self.noted.as_slice()
    }

    /// From now on the reads of the script with these numbers, from 0 on, fail, in place of those named before.
    pub fn fail_reads(&mut self, numbers: Vec<u64>)
        ensures told { desk_told self.new ≡ desk_told self.old }
        ensures plan { desk_plan self.new ≡ record (desk_plan self.old) { failing_reads = numbers.items } }
    {
        self.failing_reads = numbers;
    }

    /// From now on these sayings fail, in place of those named before.
    pub fn fail_says(&mut self, says: Vec<FailingSay>)
        ensures told { desk_told self.new ≡ desk_told self.old }
        ensures plan { desk_plan self.new ≡ record (desk_plan self.old) { failing_says = says.items } }
    {
        self.failing_says = says;
    }

    /// How many bytes the next read gives into a buffer of so many.
    fn next_count(&self, room: usize) -> usize
        ensures { result ≡ read_count (desk_plan self.now) room (vec_len self.now.script - self.now.at) }
    {
        let most = match self.cuts.get(self.reads as usize) {
            Some(most) if *most > 0 => *most as usize,
            _ => room,
        };
        most.min(room.min(self.script.len() - self.at))
    }
}

impl MemDesk {
    ghost use Rattle.std.specs.Prelude.{length, OnOk, OnErr, IsErr, is_err};
    ghost use Rattle.chip_trait.specs.declared.event.Event.TheVariants.{Said};
    ghost use Rattle.chip_trait.specs.Told.{Appends, FailsToSay, SayCounts, Rose};
    ghost use Rattle.chip_mem.specs.Plan.{is_full};
    ghost use Rattle.chip_mem.specs.Views.{plan_of, told_of};
    ghost use Rattle.ipl_cli.specs.MemDesk.{SaysOrFails, desk_told, desk_plan, told_in_part};

    /// Says a piece that isn't to fail. It fails exactly where the chip has no room for it, and then nothing of it is said.
    fn say_whole(&mut self, piece: &[u8]) -> Result<(), Failed>
        requires some { 0 < length piece.now }
        requires short { length piece.now ≤ 1024 }
        ensures says { SaysOrFails piece.now result (desk_told self.old) (desk_told self.new) }
        ensures fails { is_err result ≡ is_full (plan_of self.old.chip) }
        ensures plan { desk_plan self.new ≡ desk_plan self.old }
    {
        if self.chip.append_said(piece) {
            return Ok(());
        }
        self.say_faults = self.say_faults.saturating_add(1);
        Err(Failed)
    }

    /// Says at most so many bytes of a piece, and fails.
    fn say_part(&mut self, piece: &[u8], kept: u32) -> Result<(), Failed>
        requires some { 0 < length piece.now }
        requires short { length piece.now ≤ 1024 }
        ensures err { FailsToSay piece.now (desk_told self.old) (desk_told self.new) }
        ensures counts { SayCounts (desk_told self.old) (desk_told self.new) }
        ensures cause { Rose (desk_told self.old).beside.say_faults (desk_told self.new).beside.say_faults }
        ensures fails { IsErr result }
        ensures part { told_of self.new.chip ≡ told_in_part kept piece.now (plan_of self.old.chip)
            (told_of self.old.chip) }
        ensures plan { desk_plan self.new ≡ desk_plan self.old }
    {
        let count = piece.len().min(kept as usize);
        self.say_faults = self.say_faults.saturating_add(1);
        if count > 0 {
            // Where the chip has no room either, nothing is said.
            let _ = self.chip.append_said(&piece[..count]);
        }
        Err(Failed)
    }
}

impl Chip for MemDesk {
    ghost use Rattle.ipl_cli.specs.MemDesk.{desk_told, desk_consistently};

    ghost told = { desk_told };

    ghost consistent = { desk_consistently };

    fn units(&self) -> u32 {
        self.chip.units()
    }

    fn read(&mut self, p: u32, s: u32, into: &mut [u8; 512]) -> Result<(), Failed> {
        self.chip.read(p, s, into)
    }

    fn program(&mut self, p: u32, s: u32, from: &[u8; 512]) -> Result<(), Failed> {
        self.chip.program(p, s, from)
    }

    fn erase(&mut self, p: u32) -> Result<Wear, Failed> {
        self.chip.erase(p)
    }

    fn barrier(&mut self) -> Result<(), Failed> {
        self.chip.barrier()
    }
}

impl Desk for MemDesk {
    ghost use Rattle.std.specs.Prelude.{◌||◌, length, OnOk, OnErr, IfSome, is_err, is_some};
    ghost use Rattle.chip_trait.specs.declared.event.Event.TheVariants.{Said};
    ghost use Rattle.chip_trait.specs.Told.{Appends, FailsToSay, SayCounts, IsBeside, Takes, TakesNote, Rose};
    ghost use Rattle.chip_mem.specs.Plan.{counted, is_full};
    ghost use Rattle.chip_mem.specs.Views.{plan_of, told_of};
    ghost use Rattle.ipl_cli.specs.Failing.{kept_at};
    ghost use Rattle.ipl_cli.specs.MemDesk.{SaysOrFails, beside_of, desk_told, desk_plan, noted_with, read_fails, read_count, told_in_part};

    /// It fails exactly where it is told to.
    fn read_script(&mut self, buf: &mut [u8]) -> Result<usize, Failed>
        requires { 0 < length buf.old }
        ensures bound { IfOk result (λ n. n ≤ length buf.new) }
        ensures bytes { Takes (desk_told self.old).beside (desk_told self.new).beside result buf.new }
        ensures chip { IsBeside (desk_told self.old) (desk_told self.new) }
        ensures cause { OnErr result
            (Rose (desk_told self.old).beside.script_faults (desk_told self.new).beside.script_faults) }

        // exactly
        ensures fails { is_err result ≡ read_fails (desk_plan self.old) }
        ensures count { IfOk result
            (λ n. n ≡ read_count (desk_plan self.old) (length buf.old) (vec_len self.old.script - self.old.at)) }
        ensures plan { desk_plan self.new ≡ record (desk_plan self.old) { reads = counted (desk_plan self.old).reads } }
    {
        if self.failing_reads.contains(&self.reads) {
            self.reads = self.reads.saturating_add(1);
            self.script_faults = self.script_faults.saturating_add(1);
            return Err(Failed);
        }
        let count = self.next_count(buf.len());
        buf[..count].copy_from_slice(&self.script[self.at..self.at + count]);
        self.at += count;
        self.reads = self.reads.saturating_add(1);
        self.script_bytes = self.script_bytes.saturating_add(count as u64);
        Ok(count)
    }

    /// It fails exactly where it is told to, or where the chip has no room for the event.
    fn say(&mut self, piece: &[u8]) -> Result<(), Failed>
        requires some { 0 < length piece.now }
        requires short { length piece.now ≤ 1024 }
        ensures says { SaysOrFails piece.now result (desk_told self.old) (desk_told self.new) }

        // exactly
        ensures fails { is_err result
            ≡ (is_some (kept_at (desk_plan self.old).failing_says (desk_plan self.old).says)
            || is_full (plan_of self.old.chip)) }
        ensures part { IfSome (kept_at (desk_plan self.old).failing_says (desk_plan self.old).says)
            (λ kept. told_of self.new.chip ≡ told_in_part kept piece.now (plan_of self.old.chip)
            (told_of self.old.chip)) }
        ensures plan { desk_plan self.new ≡ record (desk_plan self.old) { says = counted (desk_plan self.old).says } }
    {
        let kept = kept_of(&self.failing_says, self.says);
        self.says = self.says.saturating_add(1);
        match kept {
            None => self.say_whole(piece),
            Some(kept) => self.say_part(piece, kept),
        }
    }

    /// What is noted is told while it is at most 1,024 bytes.
    fn note(&mut self, piece: &[u8])
        ensures notes { TakesNote piece.now (desk_told self.old) (desk_told self.new) }

        // exactly
        ensures noted { (beside_of self.new).noted ≡ noted_with (beside_of self.old).noted piece.now }
        ensures plan { desk_plan self.new ≡ desk_plan self.old }
    {
        if self.noted.try_extend_from_slice(piece).is_err() {
            self.all_noted = false;
        }
    }
}
