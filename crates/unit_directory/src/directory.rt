//! The directory of units.
ghost use Rattle.std.specs.Prelude.{◌≡◌, ◌≢◌, ◌+◌, ◌-◌, ◌<◌, ◌≤◌, ℕ, nat_lt, length, slice_index, IfOk, IfSome, IfNone, true, false};
ghost use Rattle.ipl_base.specs.declared.limits.TheConstants.{MOST_SPARES};
ghost use Rattle.ipl_base.specs.Places.{KeepsUnits};
ghost use Rattle.ipl_meaning.specs.Tables.{IsFree, with_use, with_erased, with_retired, with_written, with_mask, with_masks, with_marks_ended, masks_in};
ghost use Rattle.unit_directory.specs.Free.{IsNextFree, free_count, spares_of};
ghost use Rattle.unit_directory.specs.Reserves.{clean_logs};
ghost use Rattle.unit_directory.specs.Directory.{empty_places, with_erases_of, after_adopt, after_replace, with_marked, with_noted_log, is_known, next_log, IsSoundDirectory};

use crate::lists::{RetiredList, insert_place};
use crate::marked::{MARKED_LOGS, UNKNOWN_LOGS, clean, end_all_marks, noted};
use arrayvec::ArrayVec;
use bounded_vec::BoundedVec;
use ipl_base::{FIRST_LOG_SECTOR, Geometry, LOG_SECTORS, OutOfMemory, RESERVED_PLACES};
use std::alloc::Global;
use std::marker::Model;

/// Which place is current for each unit, which places are in use, how often each was erased and which
/// are retired, and how many of the 15 log sectors of each unit's place, from the first on, count as
/// written: the others are known clean, by what was done or by a mark that counts still; or that nothing
/// is known of them. The generation that the header there has; and for each of these
/// 15, which pages its records name, as a mask. A contract sees them as lists, by unit, by place, and by
/// unit and sector. There are 5 to 1028 places, always as many, and as many units as may be kept on them.
/// Memory is taken by `new` alone, for as many units as are kept where no place is spare.
#[derive(Drop)]
pub struct Directory {
    current: BoundedVec<u32>,
    in_use: BoundedVec<bool>,
    /// By place, as far as 32 bits count.
    erases: BoundedVec<u32>,
    /// In rising order.
    retired: RetiredList,
    /// 0 to 15; 16 more by a mark that counts; 32, where nothing is known.
    written: BoundedVec<u32>,
    generations: BoundedVec<u64>,
    masks: BoundedVec<[u16; 15]>,
}

/// A place none of whose log sectors names a page.
const NO_MASKS: [u16; 15] = [0; 15];

impl Model for Directory {
    ghost use Rattle.std.specs.Prelude.{length, ◌≤◌};
    ghost use Rattle.ipl_meaning.specs.Tables.{Places};
    ghost use Rattle.unit_directory.specs.Directory.{places_table, IsSoundDirectory};
    ghost use Rattle.ipl_base.specs.Places.{units_on};

    ghost Value = { Places };

    ghost view = { λ d. places_table d.current.items d.in_use.items d.erases.items d.retired.items
        d.written.items d.generations.items d.masks.items };

    ghost invariant = { λ d. IsSoundDirectory
        (places_table d.current.items d.in_use.items d.erases.items d.retired.items
        d.written.items d.generations.items d.masks.items)
        × (units_on (length d.in_use.items) ≤ d.current.room)
        × (units_on (length d.in_use.items) ≤ d.written.room)
        × (units_on (length d.in_use.items) ≤ d.generations.room)
        × (units_on (length d.in_use.items) ≤ d.masks.room) };
}

impl Directory {
    /// No place is in use or retired, and each counts as erased once. Until a unit adopts a place it has
    /// place 0, with nothing known of its log sectors.
    pub fn new(alloc: Global, geometry: Geometry) -> Result<Directory, OutOfMemory>
        ensures { IfOk result (λ directory. directory ≡ empty_places geometry.places geometry.units) }
    {
        let units = geometry.units() as usize;
        let places = geometry.places() as usize;
        let most = places - RESERVED_PLACES as usize;
        Ok(Directory {
            current: BoundedVec::filled(alloc, most, units, 0)?,
            in_use: BoundedVec::filled(alloc, places, places, false)?,
            erases: BoundedVec::filled(alloc, places, places, 1)?,
            retired: ArrayVec::new(),
            written: BoundedVec::filled(alloc, most, units, UNKNOWN_LOGS)?,
            generations: BoundedVec::filled(alloc, most, units, 0)?,
            masks: BoundedVec::filled(alloc, most, units, NO_MASKS)?,
        })
    }

    /// Makes it as `new` does, with so many units. It takes no memory.
    pub fn set_units(&mut self, units: u32)
        requires { KeepsUnits (length self.old.in_use) units }
        ensures { self.new ≡ empty_places (length self.old.in_use) units }
    {
        let units = units as usize;
        self.current.refill(units, 0);
        self.in_use.fill(false);
        self.erases.fill(1);
        self.retired.clear();
        self.written.refill(units, UNKNOWN_LOGS);
        self.generations.refill(units, 0);
        self.masks.refill(units, NO_MASKS);
    }

    /// What always holds: the chip has 5 to 1028 places, as many units as may be kept on them, each has a
    /// place of the chip, and what stands of its log sectors is at most 32. Of the places no more are retired
    /// than are spare, in rising order.
    pub fn facts(&self)
        ensures { IsSoundDirectory self.now }
    {
        let _ = &self.current;
    }

    /// How many places the chip has, 5 to 1028.
    pub fn places(&self) -> u32
        ensures count { result ≡ length self.now.in_use }
    {
        self.in_use.len() as u32
    }

    /// How many units have a place.
    pub fn units(&self) -> u32
        ensures { result ≡ length self.now.current }
    {
        self.current.len() as u32
    }

    /// The place that is current for a unit, one of the chip's.
    pub fn current(&self, unit: u32) -> u32
        requires { unit < length self.now.current }
        ensures place { result ≡ slice_index self.now.current unit }
        ensures in_range { result < length self.now.in_use }
    {
        self.current[unit as usize]
    }

    /// How many places are free, of all of the chip.
    pub fn free_count(&self) -> u32
        ensures count { result ≡ free_count self.now.in_use }
        ensures in_range { result ≤ length self.now.in_use }
    {
        self.in_use.iter().filter(|used| !**used).count() as u32
    }

    /// Takes the free place that was erased least often, the lowest of these, which is in use then. That
    /// one is free is a condition, which `free_count` tests.
    #[tactic(auto, using(crate::proofs::FreeLemmas::next_place))]
    pub fn take_free(&mut self) -> u32
        requires { 0 < free_count self.old.in_use }
        ensures next { IsNextFree self.old result }
        ensures taken { self.new ≡ with_use self.old result true }

        // What is known of the place then.
        ensures free { IsFree self.old result }
        ensures in_range { result < length self.old.in_use }
    {
        match self.next_free() {
            Some(place) => {
                self.in_use[place] = true;
                place as u32
            }
            None => unreachable!("a place is free"),
        }
    }

    /// Takes a place: it is in use, whether it was or not.
    pub fn take(&mut self, place: u32)
        requires { place < length self.old.in_use }
        ensures { self.new ≡ with_use self.old place true }
    {
        self.in_use[place as usize] = true;
    }

    /// Gives a place back: it is free, whether it was or not.
    pub fn give_back(&mut self, place: u32)
        requires { place < length self.old.in_use }
        ensures { self.new ≡ with_use self.old place false }
    {
        self.in_use[place as usize] = false;
    }

    /// How often a place was erased, as far as is known: up to 2^32 - 1.
    pub fn erases(&self, place: u32) -> u32
        requires { place < length self.now.in_use }
        ensures { result ≡ slice_index self.now.erases place }
    {
        self.erases[place as usize]
    }

    /// Counts one erase more of a place, up to 2^32 - 1.
    pub fn count_erase(&mut self, place: u32)
        requires { place < length self.old.in_use }
        ensures { self.new ≡ with_erased self.old place }
    {
        let erases = self.erases[place as usize];
        self.erases[place as usize] = erases.saturating_add(1);
    }

    /// Sets how often a place was erased, as its header was found to say.
    pub fn set_erases(&mut self, place: u32, erases: u32)
        requires { place < length self.old.in_use }
        ensures { self.new ≡ with_erases_of self.old place erases }
    {
        self.erases[place as usize] = erases;
    }

    /// How many places are kept for those that wear out, 0 to 64: all that are no unit's but four.
    pub fn spares(&self) -> u32
        ensures count { result ≡ spares_of self.now }
        ensures in_range { result ≤ MOST_SPARES }
    {
        self.in_use.len() as u32 - RESERVED_PLACES - self.current.len() as u32
    }

    /// The places that are retired, in rising order.
    pub fn retired(&self) -> &[u32]
        ensures { result.now ≡ self.now.retired }
    {
        self.retired.as_slice()
    }

    /// How many these are, no more than are spare.
    pub fn retired_count(&self) -> u32
        ensures count { result ≡ length self.now.retired }
        ensures few { result ≤ spares_of self.now }
    {
        self.retired.len() as u32
    }

    /// Retires a place, which was found worn. That fewer are retired than are spare is a condition.
    pub fn retire(&mut self, place: u32)
        requires place { place < length self.old.in_use }
        requires few { length self.old.retired < spares_of self.old }
        ensures { self.new ≡ with_retired self.old place }
    {
        insert_place(&mut self.retired, place);
    }

    /// The generation that the header of a unit has.
    pub fn generation(&self, unit: u32) -> u64
        requires { unit < length self.now.current }
        ensures { result ≡ slice_index self.now.generations unit }
    {
        self.generations[unit as usize]
    }

    /// Makes a place the unit's, as one that was found on a chip with a header of this generation: it is
    /// in use, and nothing is known of its log sectors. The unit's old place stays as it is.
    pub fn adopt(&mut self, unit: u32, place: u32, generation: u64)
        requires unit { unit < length self.old.current }
        requires place { place < length self.old.in_use }
        ensures { self.new ≡ after_adopt self.old unit place generation }
    {
        self.current[unit as usize] = place;
        self.in_use[place as usize] = true;
        self.written[unit as usize] = UNKNOWN_LOGS;
        self.generations[unit as usize] = generation;
        self.masks[unit as usize] = NO_MASKS;
    }

    /// Makes a place the unit's, as one that was taken and erased before and has a header of this
    /// generation: all its log sectors are known clean. The unit's old place, which is another one, is
    /// free then.
    pub fn replace(&mut self, unit: u32, place: u32, generation: u64)
        requires unit { unit < length self.old.current }
        requires place { place < length self.old.in_use }
        requires another { place ≢ slice_index self.old.current unit }
        ensures { self.new ≡ after_replace self.old unit place generation }
    {
        let old = self.current[unit as usize];
        self.current[unit as usize] = place;
        self.in_use[old as usize] = false;
        self.written[unit as usize] = 0;
        self.generations[unit as usize] = generation;
        self.masks[unit as usize] = NO_MASKS;
    }

    /// The first log sector of the unit's place that is known clean and may be written, 241 to 255, if
    /// there is one.
    pub fn next_log(&self, unit: u32) -> Option<u32>
        requires { unit < length self.now.current }
        ensures next { result ≡ next_log self.now unit }

        // What that comes to.
        ensures some { IfSome result (λ s. s ≡ 241 + slice_index self.now.written unit) }
        ensures in_range { IfSome result (λ s. (241 ≤ s) × (s ≤ 255)) }
        ensures none { IfNone result (15 ≤ slice_index self.now.written unit) }
    {
        let written = self.written[unit as usize];
        if written >= LOG_SECTORS {
            return None;
        }
        Some(FIRST_LOG_SECTOR + written)
    }

    /// Counts the sector that `next_log` names as written. That there is one is a condition.
    pub fn used_log(&mut self, unit: u32)
        requires unit { unit < length self.old.current }
        requires left { slice_index self.old.written unit < 15 }
        ensures { self.new ≡ with_written self.old unit }
    {
        self.written[unit as usize] += 1;
    }

    /// How many log sectors of the unit's place, 0 to 15, count as clean: by what was done, or by a mark
    /// that counts still. None does where nothing is known.
    pub fn clean_logs(&self, unit: u32) -> u32
        requires { unit < length self.now.current }
        ensures { result ≡ clean_logs self.now unit }
    {
        clean(self.written[unit as usize])
    }

    /// Whether something is known of the unit's log sectors.
    pub fn is_known(&self, unit: u32) -> bool
        requires { unit < length self.now.current }
        ensures { result ≡ is_known self.now unit }
    {
        self.written[unit as usize] < UNKNOWN_LOGS
    }

    /// Notes that by a mark so many of the unit's log sectors (0 to 15), from the first on, were written,
    /// and the others are clean. None is to be written until `end_marks`.
    pub fn set_marked(&mut self, unit: u32, written: u32)
        requires unit { unit < length self.old.current }
        requires few { written ≤ 15 }
        ensures { self.new ≡ with_marked self.old unit written }
    {
        self.written[unit as usize] = MARKED_LOGS + written;
    }

    /// Notes that one more of the unit's log sectors was seen (0 to 14, in rising order), and whether it
    /// checks, or is blank, or neither. Where a mark told of the unit it counts as one more that was
    /// written, if it checks and all before it did; if it is blank, what was known is known still;
    /// else nothing is. Where no mark told of the unit, nothing changes.
    pub fn note_log(&mut self, unit: u32, number: u32, checks: bool, blank: bool)
        requires unit { unit < length self.old.current }
        requires number { number < 15 }
        ensures { self.new ≡ with_noted_log self.old unit number checks blank }
    {
        let known = self.written[unit as usize];
        self.written[unit as usize] = noted(known, number, checks, blank);
    }

    /// Notes that no mark counts any more: what a mark said of log sectors is known, and they may be
    /// written.
    pub fn end_marks(&mut self)
        ensures { self.new ≡ with_marks_ended self.old }
    {
        end_all_marks(&mut self.written);
    }

    /// Which pages the records of a log sector at the unit's place (241 to 255) name: bit p is page
    /// p's. A sector that isn't live has none.
    pub fn mask(&self, unit: u32, sector: u32) -> u16
        requires unit { unit < length self.now.current }
        requires least { 241 ≤ sector }
        requires most { sector ≤ 255 }
        ensures { result ≡ slice_index (masks_in self.now unit) (sector - 241) }
    {
        let masks = &self.masks[unit as usize];
        masks[(sector - FIRST_LOG_SECTOR) as usize]
    }

    /// Sets which pages the records of a log sector at the unit's place (241 to 255) name.
    pub fn set_mask(&mut self, unit: u32, sector: u32, mask: u16)
        requires unit { unit < length self.old.current }
        requires least { 241 ≤ sector }
        requires most { sector ≤ 255 }
        ensures { self.new ≡ with_mask self.old unit sector mask }
    {
        let masks = &mut self.masks[unit as usize];
        masks[(sector - FIRST_LOG_SECTOR) as usize] = mask;
    }

    /// Sets which pages the records of each of the 15 log sectors at the unit's place name.
    pub fn set_masks(&mut self, unit: u32, masks: [u16; 15])
        requires { unit < length self.old.current }
        ensures { self.new ≡ with_masks self.old unit masks }
    {
        self.masks[unit as usize] = masks;
    }
}

impl Directory {
    /// The free place that was erased least often, the lowest of these, if a place is free.
    fn next_free(&self) -> Option<usize>
        ensures some { IfSome result (λ place. IsNextFree self.now place) }
        ensures none { IfNone result ((p : ℕ) → ¬ IsFree self.now p) }
    {
        let mut next = None;
        for place in 0..self.in_use.len() {
            if !self.in_use[place] && self.is_less_worn(place, next) {
                next = Some(place);
            }
        }
        next
    }

    /// Whether a place was erased less often than another one, or there is no other.
    fn is_less_worn(&self, place: usize, other: Option<usize>) -> bool
        requires place { place < length self.now.in_use }
        requires other { IfSome other (λ p. p < length self.now.in_use) }
        ensures less { IfSome other (λ p.
            result ≡ nat_lt (slice_index self.now.erases place) (slice_index self.now.erases p)) }
        ensures none { IfNone other (result ≡ true) }
    {
        match other {
            Some(other) => self.erases[place] < self.erases[other],
            None => true,
        }
    }
}
