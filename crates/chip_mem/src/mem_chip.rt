//! A chip in memory that keeps its story, and fails and is worn where it is told to.
ghost use Rattle.std.specs.Prelude.{◌≡◌, ◌<◌, ◌≤◌, ◌*◌, length, vec_len, IfOk};
ghost use Rattle.std.specs.Bool.{OnTrue, OnFalse};
ghost use Rattle.std.specs.List.{AllPass};
ghost use Rattle.std.specs.Vec.{vec_capacity};
ghost use Rattle.std.proofs.Props.{props};
ghost use Rattle.chip_mem.specs.Story.{IsReplayed, is_inside};

use crate::faults::Faults;
use crate::image::image_sectors;
use crate::pick::Pick;
use crate::schedule::Schedule;
use crate::sectors::{copy_sectors, erase_place, erased_sectors, program_sector, read_sector};
use chip_trait::{Chip, Event, Failed, Piece, Wear};
use ipl_base::{OutOfMemory, SECTORS};
use std::alloc::Global;

/// A chip in memory that tells what it holds and its story. It has room for so many events.
#[derive(Drop)]
pub struct MemChip {
    places: u32,
    start: Vec<[u8; 512]>,
    sectors: Vec<[u8; 512]>,
    events: Vec<Event>,
    room: u64,
    schedule: Schedule,
    faults: Faults,
    worn_erases: u64,
    ghost start_sized: { length start.items ≡ places * 256 },
    ghost sized: { length sectors.items ≡ places * 256 },
    ghost fits: { vec_len events ≤ room },
    ghost reserved: { room ≤ vec_capacity events },
    ghost inside: { AllPass (is_inside places) events.items } by { Prim.hlevel props },
    ghost replayed: { IsReplayed start.items events.items sectors.items } by { Prim.hlevel props },
}

impl MemChip {
    ghost use Rattle.std.specs.Prelude.{Bool, List, OnOk, Some, not, reverse, ℕ};
    ghost use Rattle.chip_trait.specs.declared.event.Event.TheVariants.{Program, Said};
    ghost use Rattle.chip_trait.specs.Story.{after, held};
    ghost use Rattle.chip_trait.specs.Image.{IsImage, NoChance};
    ghost use Rattle.chip_mem.specs.Sectors.{HasWholeSectors, erased};
    ghost use Rattle.chip_mem.specs.Plan.{is_full, new_plan, with_event};
    ghost use Rattle.chip_mem.specs.Picked.{NoneByChance, first, image_at};
    ghost use Rattle.chip_mem.specs.Tells.{appended, restarted, starting};
    ghost use Rattle.chip_mem.specs.Views.{history_of, plan_of, told_of};

    /// An erased chip of so many places, with room for so many events. Of its calls only `image` takes memory.
    pub fn new(alloc: Global, places: u32, room: u64) -> Result<MemChip, OutOfMemory>
        ensures told { IfOk result (λ chip. told_of chip ≡ starting places erased) }
        ensures plan { IfOk result (λ chip. plan_of chip ≡ new_plan room) }
    {
        let sectors = erased_sectors(alloc, places as usize * SECTORS as usize)?;
        MemChip::starting(alloc, places, room, sectors)
    }

    /// What a power cut leaves after the first `at` events, or after all where there are fewer, as a new chip with as much
    /// room and no place worn. Of the sectors that may be torn it leaves what the picks say, and of all others what is held.
    /// These sectors are the ones that were programmed or erased since the last barrier among these events, and those of
    /// worn places. A pick of another sector is passed over, and so is one that names an event that isn't one of those since
    /// the barrier. Of two picks of a sector the last counts.
    pub fn image(&self, alloc: Global, at: u64, picks: &[Pick]) -> Result<MemChip, OutOfMemory>
        ensures told { let x = image_at (history_of self.now) at picks.now in
            IfOk result (λ chip. told_of chip ≡ starting (told_of self.now).places x) }
        ensures plan { IfOk result (λ chip. plan_of chip ≡ new_plan (plan_of self.now).room) }

        // It is one of those that may be left, and no sector checks by chance but by the bytes of a pick. Each has 512 bytes.
        ensures image { let h = history_of self.now in
            OnOk result (IsImage h.start (first at h.story) (image_at h at picks.now)) }
        ensures chance { let h = history_of self.now in
            OnOk result ((checks : List ℕ → Bool) → NoneByChance checks picks.now
            → NoChance checks h.start (first at h.story) (image_at h at picks.now)) }
        ensures fits { OnOk result (HasWholeSectors (image_at (history_of self.now) at picks.now)) }
    {
        let count = self.events.len().min(at as usize);
        let sectors = image_sectors(alloc, &self.start, &self.events[..count], picks)?;
        MemChip::starting(alloc, self.places, self.room, sectors)
    }

    /// Sets a sector of what is held. That is a new start, after which nothing was asked for yet.
    pub fn alter(&mut self, p: u32, s: u32, bytes: &[u8; 512])
        requires place { p < (told_of self.old).places }
        requires sector { s < 256 }
        ensures told { let h = history_of self.old in let x = after (Program p s bytes.now) (held h.start h.story) in
            told_of self.new ≡ restarted x (told_of self.old) }
        ensures plan { plan_of self.new ≡ record (plan_of self.old) { kept = 0 } }
    {
        self.events.clear();
        program_sector(&mut self.sectors, p as usize, s as usize, bytes);
        self.start.copy_from_slice(&self.sectors);
        self.faults.settle();
    }

    /// From now on the calls with these numbers fail, in place of those that were named before. All reads, programs, erases and
    /// barriers since the chip was made are numbered together, from 0 on.
    pub fn fail_at(&mut self, calls: Vec<u64>)
        ensures told { told_of self.new ≡ told_of self.old }
        ensures plan { plan_of self.new ≡ record (plan_of self.old) { failing = calls.items } }
    {
        self.schedule.failing = calls;
    }

    /// From now on only the first `k` of all programs, erases and barriers since the chip was made may succeed, and each later
    /// one fails.
    pub fn stop_after(&mut self, k: u64)
        ensures told { told_of self.new ≡ told_of self.old }
        ensures plan { plan_of self.new ≡ record (plan_of self.old) { stop = Some k } }
    {
        self.schedule.stop = Some(k);
    }

    /// From now on erases of these places find them worn, and of no others, in place of those that were named before. Their
    /// sectors hold what they held.
    pub fn wear_out(&mut self, places: Vec<u32>)
        ensures told { told_of self.new ≡ told_of self.old }
        ensures plan { plan_of self.new ≡ record (plan_of self.old) { worn_out = places.items } }
    {
        self.schedule.worn_out = places;
    }

    /// The story, the oldest event first.
    pub fn events(&self) -> &[Event]
        ensures story { (history_of self.now).story ≡ reverse result.now }
        ensures kept { (plan_of self.now).kept ≡ length result.now }
    {
        self.events.as_slice()
    }

    /// Appends what was said; false exactly where there is no room, and then nothing changes.
    pub fn append_said(&mut self, piece: &[u8]) -> bool
        requires some { 0 < length piece.now }
        requires short { length piece.now ≤ 1024 }
        ensures spent { result ≡ not (is_full (plan_of self.old)) }
        ensures told { OnTrue result (told_of self.new ≡ appended (Said piece.now) (told_of self.old)) }
        ensures plan { OnTrue result (plan_of self.new ≡ with_event (plan_of self.old)) }
        ensures unchanged { OnFalse result (self.new ≡ self.old) }
    {
        if self.is_full() {
            return false;
        }
        self.events.push_reserved(Event::Said(Piece::of(piece)));
        true
    }
}

impl MemChip {
    ghost use Rattle.std.specs.Prelude.{true, false, if◌then◌else◌};
    ghost use Rattle.chip_trait.specs.Told.{Counts};
    ghost use Rattle.chip_mem.specs.Sectors.{HasWholeSectors, contents_of};
    ghost use Rattle.chip_mem.specs.Plan.{is_full, fails_read, fails_write, new_plan, with_read, with_write};
    ghost use Rattle.chip_mem.specs.Tells.{missed, broken, starting};
    ghost use Rattle.chip_mem.specs.Views.{history_of, plan_of, told_of};

    // A chip with these sectors that was asked nothing yet.
    fn starting(
        alloc: Global,
        places: u32,
        room: u64,
        sectors: Vec<[u8; 512]>,
    ) -> Result<MemChip, OutOfMemory>
        requires { length sectors.items ≡ places * 256 }
        ensures told { IfOk result (λ chip. told_of chip ≡ starting places (contents_of sectors.items)) }
        ensures plan { IfOk result (λ chip. plan_of chip ≡ new_plan room) }
        ensures fits { HasWholeSectors (contents_of sectors.items) }
    {
        Ok(MemChip {
            places,
            start: copy_sectors(alloc, &sectors)?,
            sectors,
            events: Vec::with_capacity(alloc, room as usize)?,
            room,
            schedule: Schedule::none(alloc),
            faults: Faults::new(),
            worn_erases: 0,
        })
    }

    fn is_full(&self) -> bool
        ensures value { result ≡ is_full (plan_of self.now) }
        ensures reserved { OnFalse result (vec_len self.now.events < vec_capacity self.now.events) }
    {
        self.room <= self.events.len() as u64
    }

    // Counts a read, and its fault where it is to fail.
    fn misses(&mut self) -> bool
        ensures fails { result ≡ fails_read (plan_of self.old) }
        ensures told { told_of self.new ≡ (if result then missed (told_of self.old) else told_of self.old) }
        ensures plan { plan_of self.new ≡ with_read (plan_of self.old) }
        ensures counts { Counts (told_of self.old) (told_of self.new) }
        ensures reserved { OnFalse result (vec_len self.new.events < vec_capacity self.new.events) }
    {
        let fails = self.schedule.lists_call() || self.is_full();
        self.schedule.count_read();
        if fails {
            self.faults.count_read();
        }
        fails
    }

    // Counts a program, an erase or a barrier, and its fault where it is to fail.
    fn breaks(&mut self) -> bool
        ensures fails { result ≡ fails_write (plan_of self.old) }
        ensures told { told_of self.new ≡ (if result then broken (told_of self.old) else told_of self.old) }
        ensures plan { plan_of self.new ≡ with_write (plan_of self.old) }
        ensures counts { Counts (told_of self.old) (told_of self.new) }
        ensures reserved { OnFalse result (vec_len self.new.events < vec_capacity self.new.events) }
    {
        let fails = self.schedule.lists_call() || self.schedule.is_past_stop() || self.is_full();
        self.schedule.count_write();
        if fails {
            self.faults.count_write();
        }
        fails
    }
}

impl Chip for MemChip {
    ghost use Rattle.std.specs.Prelude.{OnOk, OnErr, IfSome, is_err};
    ghost use Rattle.chip_trait.specs.Wears.{Wears};
    ghost use Rattle.chip_trait.specs.declared.event.Event.TheVariants.{Read, Program, Erase, Barrier};
    ghost use Rattle.chip_trait.specs.Told.{Appends, Misses, Breaks, Halts, Counts, Rose};
    ghost use Rattle.chip_mem.specs.Sectors.{contents_of};
    ghost use Rattle.chip_mem.specs.Plan.{fails_read, fails_write, after_read, after_write};
    ghost use Rattle.chip_mem.specs.Tells.{all_consistently, told_after_read, told_after_write, told_after_erase};
    ghost use Rattle.chip_mem.specs.Views.{history_of, plan_of, told_of};

    ghost told = { told_of };

    ghost consistent = { λ chip. all_consistently chip.places chip.faults chip.worn_erases (history_of chip)
        (contents_of chip.sectors.items) chip.replayed };

    fn units(&self) -> u32 {
        self.places
    }

    /// It fails exactly where it is told to or has no room for the event, and then changes nothing but its counts.
    fn read(&mut self, p: u32, s: u32, into: &mut [u8; 512]) -> Result<(), Failed>
        requires place { p < (told_of self.old).places }
        requires sector { s < 256 }
        ensures ok { OnOk result (Appends (Read p s) (told_of self.old) (told_of self.new)) }
        ensures err { OnErr result (Misses (Read p s) (told_of self.old) (told_of self.new)) }
        ensures bytes { OnOk result (IfSome (told_of self.old).contents (λ x. into.new ≡ x p s)) }
        ensures counts { Counts (told_of self.old) (told_of self.new) }
        ensures cause { OnErr result (Rose (told_of self.old).read_faults (told_of self.new).read_faults) }

        // exactly
        ensures fails { is_err result ≡ fails_read (plan_of self.old) }
        ensures tells { told_of self.new ≡ told_after_read (Read p s) (plan_of self.old) (told_of self.old) }
        ensures plan { plan_of self.new ≡ after_read (plan_of self.old) }
    {
        if self.misses() {
            return Err(Failed);
        }
        self.events.push_reserved(Event::Read(p, s));
        read_sector(&self.sectors, p as usize, s as usize, into);
        Ok(())
    }

    /// It fails exactly where it is told to or has no room for the event, and then nothing is programmed.
    fn program(&mut self, p: u32, s: u32, from: &[u8; 512]) -> Result<(), Failed>
        requires place { p < (told_of self.old).places }
        requires sector { s < 256 }
        ensures ok { OnOk result (Appends (Program p s from.now) (told_of self.old) (told_of self.new)) }
        ensures err { OnErr result (Breaks (Program p s from.now) (told_of self.old) (told_of self.new)) }
        ensures counts { Counts (told_of self.old) (told_of self.new) }
        ensures cause { OnErr result (Rose (told_of self.old).write_faults (told_of self.new).write_faults) }

        // exactly
        ensures fails { is_err result ≡ fails_write (plan_of self.old) }
        ensures tells { told_of self.new ≡ told_after_write (Program p s from.now) (plan_of self.old) (told_of self.old) }
        ensures plan { plan_of self.new ≡ after_write (plan_of self.old) }
    {
        if self.breaks() {
            return Err(Failed);
        }
        self.events.push_reserved(Event::Program(p, s, *from));
        program_sector(&mut self.sectors, p as usize, s as usize, from);
        Ok(())
    }

    /// It fails exactly where it is told to or has no room for the event, and then nothing is erased; and it finds exactly the
    /// places worn that were named.
    fn erase(&mut self, p: u32) -> Result<Wear, Failed>
        requires { p < (told_of self.old).places }
        ensures ok { IfOk result (λ wear. Wears wear p (told_of self.old) (told_of self.new)) }
        ensures err { OnErr result (Breaks (Erase p) (told_of self.old) (told_of self.new)) }
        ensures counts { Counts (told_of self.old) (told_of self.new) }
        ensures cause { OnErr result (Rose (told_of self.old).write_faults (told_of self.new).write_faults) }

        // exactly
        ensures fails { is_err result ≡ fails_write (plan_of self.old) }
        ensures tells { told_of self.new ≡ told_after_erase p (plan_of self.old) (told_of self.old) }
        ensures plan { plan_of self.new ≡ after_write (plan_of self.old) }
    {
        if self.breaks() {
            return Err(Failed);
        }
        if self.schedule.is_worn_out(p) {
            self.events.push_reserved(Event::Worn(p));
            self.worn_erases = self.worn_erases.saturating_add(1);
            return Ok(Wear::Worn);
        }
        self.events.push_reserved(Event::Erase(p));
        erase_place(&mut self.sectors, p as usize);
        Ok(Wear::Done)
    }

    /// It fails exactly where it is told to or has no room for the event.
    fn barrier(&mut self) -> Result<(), Failed>
        ensures ok { OnOk result (Appends Barrier (told_of self.old) (told_of self.new)) }
        ensures err { OnErr result (Halts (told_of self.old) (told_of self.new)) }
        ensures counts { Counts (told_of self.old) (told_of self.new) }
        ensures cause { OnErr result (Rose (told_of self.old).write_faults (told_of self.new).write_faults) }

        // exactly
        ensures fails { is_err result ≡ fails_write (plan_of self.old) }
        ensures tells { told_of self.new ≡ told_after_write Barrier (plan_of self.old) (told_of self.old) }
        ensures plan { plan_of self.new ≡ after_write (plan_of self.old) }
    {
        if self.breaks() {
            return Err(Failed);
        }
        self.events.push_reserved(Event::Barrier);
        Ok(())
    }
}
