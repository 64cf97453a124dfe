//! The table of overflow places.
ghost use Rattle.std.specs.Prelude.{◌≡◌, ◌≤◌, ◌<◌, ℕ, map, length, nat_lt, Contains, IfOk, IfSome, IfNone, None};
ghost use Rattle.std.specs.Option.{option_map};
ghost use Rattle.ipl_base.specs.declared.limits.TheConstants.{OVERFLOW_SECTORS};
ghost use Rattle.ipl_base.specs.Places.{KeepsUnits};
ghost use Rattle.overflow.specs.Lists.{pair_of, spots_in, masks_at, empty_lists, with_place, after_add, after_find, has_room_for, after_drop, all_used, places_left, listed, first_spot, IsUnused, AreUnused, AreWithin, IsSoundOverflow};

use crate::entries::{Entry, cut, first_of, masks_in, spots_in};
use crate::places::{
    PlaceInUse, first_spot, has_place, keep_named, places_left, use_all, use_spot,
};
use arrayvec::ArrayVec;
use bounded_vec::BoundedVec;
use ipl_base::{Geometry, OVERFLOW_PLACES, OVERFLOW_SECTORS, OutOfMemory, RESERVED_PLACES, Spot};
use std::alloc::Global;
use std::marker::Model;

/// How many log sectors can stand in overflow places.
const MOST_ENTRIES: usize = 510;

/// Where the log sectors in overflow places stand, by unit, at most 16 of each; and which places
/// are overflow places in use, at most two, each with its first clean sector. A contract sees the
/// spots as pairs of place and sector, and how many places the chip has, always as many. Memory is
/// taken by `new` alone, for as many units as are kept where no place is spare.
///
/// All of them are in one list, those of a unit beside one another. Each stands in a place in use,
/// before its first clean sector; so they are at most 510, however many units there are.
#[derive(Drop)]
pub struct Overflow {
    places: u32,
    counts: BoundedVec<u8>,
    entries: BoundedVec<Entry>,
    in_use: ArrayVec<PlaceInUse, OVERFLOW_PLACES>,
}

impl Model for Overflow {
    ghost use Rattle.std.specs.Prelude.{map, ◌≤◌};
    ghost use Rattle.ipl_meaning.specs.Tables.{OverflowLists};
    ghost use Rattle.overflow.specs.Lists.{first_of, IsSoundOverflow};
    ghost use Rattle.overflow.specs.Parted.{spot_of, lists_of, most_entries, FitsTable};
    ghost use Rattle.ipl_base.specs.Places.{units_on};

    ghost Value = { OverflowLists };

    ghost view = { λ o. lists_of o.places o.counts.items o.entries.items (map first_of o.in_use.items) };

    ghost invariant = { λ o. IsSoundOverflow
        (lists_of o.places o.counts.items o.entries.items (map first_of o.in_use.items))
        × FitsTable o.counts.items (map spot_of o.entries.items) (map first_of o.in_use.items)
        × (units_on o.places ≤ o.counts.room)
        × (most_entries (units_on o.places) ≤ o.entries.room) };
}

impl Overflow {
    /// No unit has a log sector in an overflow place, and no place is in use.
    pub fn new(alloc: Global, geometry: Geometry) -> Result<Overflow, OutOfMemory>
        ensures { IfOk result (λ overflow. overflow ≡ empty_lists geometry.places geometry.units) }
    {
        let places = geometry.places();
        let units = (places - RESERVED_PLACES) as usize;
        let most = (OVERFLOW_SECTORS * units).min(MOST_ENTRIES);
        let counts = BoundedVec::filled(alloc, units, geometry.units() as usize, 0)?;
        let entries = BoundedVec::new(alloc, most)?;
        Ok(Overflow {
            places,
            counts,
            entries,
            in_use: ArrayVec::new(),
        })
    }

    /// Makes it as `new` does, with so many units. It takes no memory.
    pub fn set_units(&mut self, units: u32)
        requires { KeepsUnits self.old.places units }
        ensures { self.new ≡ empty_lists self.old.places units }
    {
        self.counts.refill(units as usize, 0);
        self.entries.clear();
        self.in_use = ArrayVec::new();
    }

    /// What always holds: there are as many units as may be kept on the chip's places, each with at most
    /// 16 spots, and at most two places in use; all these are sectors and places of the chip.
    pub fn facts(&self)
        ensures { IsSoundOverflow self.now }
    {
        let _ = &self.counts;
    }

    /// Where the unit's log sectors in overflow places stand, the oldest first, at most 16.
    pub fn list(&self, unit: u32) -> ArrayVec<Spot, OVERFLOW_SECTORS>
        requires { unit < length self.now.spots }
        ensures spots { map pair_of result.items ≡ spots_in self.now unit }
        ensures few { length result.items ≤ OVERFLOW_SECTORS }
        ensures within { AreWithin self.now.places (spots_in self.now unit) }
    {
        let count = usize::from(self.counts[unit as usize]);
        if count == 0 {
            return ArrayVec::new();
        }
        let from = first_of(&self.counts, unit as usize);
        spots_in(&self.entries, from, count)
    }

    /// Which pages each of these log sectors names, in the same order: bit p is page p's.
    pub fn masks(&self, unit: u32) -> ArrayVec<u16, OVERFLOW_SECTORS>
        requires { unit < length self.now.spots }
        ensures masks { result.items ≡ masks_at self.now unit }
        ensures each { length result.items ≡ length (spots_in self.now unit) }
    {
        let count = usize::from(self.counts[unit as usize]);
        if count == 0 {
            return ArrayVec::new();
        }
        let from = first_of(&self.counts, unit as usize);
        masks_in(&self.entries, from, count)
    }

    /// How many these are.
    pub fn count(&self, unit: u32) -> u32
        requires { unit < length self.now.spots }
        ensures count { result ≡ length (spots_in self.now unit) }
        ensures few { result ≤ OVERFLOW_SECTORS }
    {
        u32::from(self.counts[unit as usize])
    }

    /// The first clean sector of the lowest overflow place that has one.
    pub fn spot(&self) -> Option<Spot>
        ensures spot { option_map pair_of result ≡ first_spot None self.now.in_use }

        // What that comes to.
        ensures some { IfSome result (λ spot. Contains self.now.in_use (pair_of spot)) }
        ensures in_range { IfSome result (λ spot. (1 ≤ spot.sector) × (spot.sector < 256)) }
        ensures placed { IfSome result (λ spot. spot.place < self.now.places) }
        ensures lowest { IfSome result (λ spot.
            (p first : ℕ) → Contains self.now.in_use (p, first) → first < 256 → spot.place ≤ p) }
        ensures none { IfNone result
            ((p first : ℕ) → Contains self.now.in_use (p, first) → 256 ≤ first) }
    {
        first_spot(self.in_use.as_slice())
    }

    /// Whether one more place may be taken: fewer than two are in use.
    pub fn may_add(&self) -> bool
        ensures { result ≡ nat_lt (length self.now.in_use) 2 }
    {
        self.in_use.len() < OVERFLOW_PLACES
    }

    /// A place is an overflow place in use, as one that was taken and erased before: its sectors 1
    /// to 255 are clean. That one more may be taken is a condition, which `may_add` tests.
    pub fn add_place(&mut self, place: u32)
        requires few { length self.old.in_use < 2 }
        requires place { place < self.old.places }
        ensures { self.new ≡ with_place self.old place 1 }
    {
        self.in_use.push(PlaceInUse { place, first: 1 });
    }

    /// None of the sectors of the places in use is known clean any more, as of places that were found
    /// on a chip.
    pub fn use_places(&mut self)
        ensures { self.new ≡ all_used self.old }
    {
        use_all(self.in_use.as_mut_slice());
    }

    /// Puts a spot behind the unit's others, of which there are fewer than 16, with the pages that
    /// its log sector names. It isn't clean any more, nor is any before it in its place. That it was
    /// clean is a condition.
    pub fn add(&mut self, unit: u32, spot: Spot, mask: u16)
        requires unit { unit < length self.old.spots }
        requires few { length (spots_in self.old unit) < OVERFLOW_SECTORS }
        requires place { spot.place < self.old.places }
        requires sector { spot.sector < 256 }
        requires clean { IsUnused self.old.in_use spot.place spot.sector }
        ensures { self.new ≡ after_add self.old unit spot.place spot.sector mask }
    {
        use_spot(self.in_use.as_mut_slice(), spot);
        let unit = unit as usize;
        // Behind the unit's others is where the next unit's begin.
        let at = first_of(&self.counts, unit + 1);
        self.entries.insert(at, Entry::of(spot, mask));
        self.counts[unit] += 1;
    }

    /// Puts a log sector that was found on a chip behind the unit's others, of which there are fewer
    /// than 16, with the pages that it names. Its place is in use then. Where it would be a third
    /// one, it answers false, and nothing changes: there is no room for what stands in more than two.
    /// That none behind it in its place was found before is a condition.
    pub fn find(&mut self, unit: u32, spot: Spot, mask: u16) -> bool
        requires unit { unit < length self.old.spots }
        requires few { length (spots_in self.old unit) < OVERFLOW_SECTORS }
        requires place { spot.place < self.old.places }
        requires sector { (1 ≤ spot.sector) × (spot.sector < 256) }
        requires clean { AreUnused self.old.in_use spot.place spot.sector }
        ensures finds { self.new ≡ after_find self.old unit spot.place spot.sector mask }
        ensures room { result ≡ has_room_for self.old spot.place }
    {
        if !has_place(self.in_use.as_slice(), spot.place) {
            if !self.may_add() {
                return false;
            }
            self.add_place(spot.place);
        }
        self.add(unit, spot, mask);
        true
    }

    /// The unit has no spots any more, and a place that no spot of another unit names isn't in use
    /// any more. Answers these places, in the order in which they came into use.
    pub fn drop_unit(&mut self, unit: u32) -> [Option<u32>; 2]
        requires { unit < length self.old.spots }
        ensures dropped { self.new ≡ after_drop self.old unit }
        ensures left { listed result ≡ places_left self.old unit }
    {
        let unit = unit as usize;
        let from = first_of(&self.counts, unit);
        cut(&mut self.entries, from, usize::from(self.counts[unit]));
        self.counts[unit] = 0;
        let left = places_left(&self.entries, self.in_use.as_slice());
        keep_named(&self.entries, &mut self.in_use);
        left
    }
}
